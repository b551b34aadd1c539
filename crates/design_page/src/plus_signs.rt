//! The places of `+` between single signals in constants, sets, tables and state diagrams.

use abel_tree::{Binary, Decl, Expr, Meaning, Member, Module, Names, Section, Unary};
use name_uses::{ModuleParts, Part, SectionParts};
use pld_base::{OutOfMemory, Place};
use std::alloc::Global;

/// The places that are found so far, with the names of the source.
#[derive(Drop)]
struct Found<'a> {
    names: &'a Names,
    places: Vec<Place>,
}

/// Whether a name is that of a signal.
fn is_signal(names: &Names, name: &[u8]) -> bool {
    for declared in names.list.as_slice() {
        if declared.name.bytes() == name {
            return matches!(&declared.meaning, Meaning::Pin { .. } | Meaning::Node(_));
        }
    }
    false
}

/// Whether an expression is a signal or an operation on single signals, and so one bit wide.
#[cycle(single)]
fn is_single(names: &Names, expr: &Expr) -> bool {
    match expr {
        Expr::Name { word, extension: _ } => is_signal(names, word.text.bytes()),
        Expr::Paren { place: _, inner } => is_single(names, inner.get()),
        Expr::Unary {
            sign: Unary::Not,
            place: _,
            inner,
        } => is_single(names, inner.get()),
        Expr::Binary {
            sign: Binary::And | Binary::Or | Binary::Xor | Binary::Xnor,
            place: _,
            left: _,
            right,
        } => is_single(names, right.get()),
        _ => false,
    }
}

/// Adds the place of an operator that is `+` between single signals.
fn add_sign(
    found: &mut Found,
    sign: Binary,
    place: Place,
    left: &Expr,
    right: &Expr,
) -> Result<(), OutOfMemory> {
    let names = found.names;
    if matches!(sign, Binary::Plus) && is_single(names, left) && is_single(names, right) {
        found.places.push(place)?;
    }
    Ok(())
}

/// Adds those of an expression: all of them, or those in sets alone.
#[cycle(signs)]
fn add_in_expr(found: &mut Found, expr: &Expr, is_all: bool) -> Result<(), OutOfMemory> {
    let mut first = expr;
    'down: while let Expr::Binary {
        sign,
        place,
        left,
        right,
    } = first
    {
        if is_all {
            add_sign(found, *sign, *place, left.get(), right.get())?;
        }
        add_in_expr(found, right.get(), is_all)?;
        first = left.get();
    }
    match first {
        Expr::Paren { place: _, inner } => add_in_expr(found, inner.get(), is_all),
        Expr::Unary {
            sign: _,
            place: _,
            inner,
        } => add_in_expr(found, inner.get(), is_all),
        Expr::Set {
            place: _,
            members,
            extension: _,
        } => add_in_members(found, members.as_slice()),
        _ => Ok(()),
    }
}

/// Adds those of the members of a set.
#[cycle(signs)]
fn add_in_members(found: &mut Found, members: &[Member]) -> Result<(), OutOfMemory> {
    for member in members {
        add_in_member(found, member)?;
    }
    Ok(())
}

/// Adds those of a member of a set.
#[cycle(signs)]
fn add_in_member(found: &mut Found, member: &Member) -> Result<(), OutOfMemory> {
    match member {
        Member::One(expr) => add_in_expr(found, expr, true),
        Member::Span { first: _, last: _ } => Ok(()),
    }
}

/// Adds those of constants.
fn add_in_constants(found: &mut Found, decls: &[Decl]) -> Result<(), OutOfMemory> {
    for decl in decls {
        if let Decl::Constants { names: _, values } = decl {
            for value in values.as_slice() {
                add_in_expr(found, value, true)?;
            }
        }
    }
    Ok(())
}

/// Adds those of the expressions of a section: all of them, or those in sets alone.
fn add_in_parts(found: &mut Found, parts: &[Part], is_all: bool) -> Result<(), OutOfMemory> {
    for part in parts {
        add_in_expr(found, part.expr, is_all)?;
    }
    Ok(())
}

/// Adds those of a section; of equations, which have warnings of their own outside of sets, those in sets alone.
fn add_in_section(found: &mut Found, section: &SectionParts) -> Result<(), OutOfMemory> {
    match section.section {
        Section::Declarations(decls) => add_in_constants(found, decls.as_slice()),
        Section::Equations(_) => add_in_parts(found, &section.parts, false),
        Section::Table(_) | Section::Diagram(_) => add_in_parts(found, &section.parts, true),
        Section::Vectors(_) | Section::DontCare(_) => Ok(()),
    }
}

/// The places of `+` between single signals in constants, sets, tables and state diagrams of a module with these names.
pub fn signs_of_plus(
    alloc: Global,
    module: &Module,
    names: &Names,
) -> Result<Vec<Place>, OutOfMemory> {
    let source = ModuleParts::new(alloc, module)?;
    let mut found = Found {
        names,
        places: Vec::new(alloc),
    };
    add_in_constants(&mut found, module.decls.as_slice())?;
    for section in source.sections() {
        add_in_section(&mut found, section)?;
    }
    Ok(found.places)
}
