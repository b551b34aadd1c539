//! Names that are assigned a second time, so that the values are joined by OR.

use abel_tree::{Assign, Expr, Member, Module, Section, Sign, Stmt, Word};
use pld_base::{NameText, OutOfMemory};
use reports::{Cause, Warning};
use std::alloc::Global;

/// A name, and whether its complement is assigned: values of the two are joined apart.
#[derive(Clone, Copy)]
struct Target<'a> {
    word: &'a Word,
    complement: bool,
}

/// The names that are assigned so far, and the warnings on them.
#[derive(Drop)]
struct Seen<'a> {
    alloc: Global,
    targets: Vec<Target<'a>>,
    found: Vec<Warning>,
}

/// Whether two targets have one name, and both assign it or both its complement.
fn is_same(one: Target, other: Target) -> bool {
    one.complement == other.complement && one.word.text.bytes() == other.word.text.bytes()
}

/// Whether a target is among those that were seen.
fn is_seen(targets: &[Target], target: Target) -> bool {
    for other in targets {
        if is_same(*other, target) {
            return true;
        }
    }
    false
}

/// Adds a target, or a warning if it is seen already.
fn add_target<'a>(seen: &mut Seen<'a>, target: Target<'a>) -> Result<(), OutOfMemory> {
    if !is_seen(&seen.targets, target) {
        seen.targets.push(target)?;
        return Ok(());
    }
    seen.found.push(Warning {
        cause: Cause::SecondAssignment,
        place: target.word.place,
        name: NameText::new(seen.alloc, target.word.text.bytes())?,
    })?;
    Ok(())
}

/// Adds the names of a set.
fn add_members<'a>(
    seen: &mut Seen<'a>,
    members: &'a [Member],
    complement: bool,
) -> Result<(), OutOfMemory> {
    for member in members {
        if let Member::One(
            Expr::Name {
                word,
                extension: None,
            },
        ) = member
        {
            add_target(seen, Target { word, complement })?;
        }
    }
    Ok(())
}

/// Adds what an assignment adds values to; a don't-care adds none.
fn add_assign<'a>(seen: &mut Seen<'a>, assign: &'a Assign) -> Result<(), OutOfMemory> {
    if !matches!(assign.sign, Sign::Equal | Sign::Clocked) {
        return Ok(());
    }
    let complement = assign.complement;
    match &assign.target {
        Expr::Name {
            word,
            extension: None,
        } => add_target(seen, Target { word, complement }),
        Expr::Set {
            members,
            extension: None,
            ..
        } => add_members(seen, members.as_slice(), complement),
        _ => Ok(()),
    }
}

/// Adds what the statements outside of WHEN and of braces assign.
fn add_statements<'a>(seen: &mut Seen<'a>, statements: &'a [Stmt]) -> Result<(), OutOfMemory> {
    for statement in statements {
        if let Stmt::Assign(assign) = statement {
            add_assign(seen, assign)?;
        }
    }
    Ok(())
}

/// The warnings on names that equations assign a second time, in all sections of a module.
pub fn assigned_twice(alloc: Global, module: &Module) -> Result<Vec<Warning>, OutOfMemory> {
    let mut seen = Seen {
        alloc,
        targets: Vec::new(alloc),
        found: Vec::new(alloc),
    };
    for section in module.sections.as_slice() {
        if let Section::Equations(statements) = section {
            add_statements(&mut seen, statements.as_slice())?;
        }
    }
    Ok(seen.found)
}
