//! The names that expressions use, one after the other.

ghost use Rattle.std.specs.Prelude.{◌≡◌, ◌++◌, IfOk, None, OnOk, map};
ghost use Rattle.std.specs.List.{flat_map};
ghost use Rattle.abel_tree.specs.Assigned.{without_extension};
ghost use Rattle.abel_tree.specs.View.{view, view_member};
ghost use Rattle.name_uses.specs.NamesUsed.{member_used, names_used};
ghost use Rattle.name_uses.specs.Viewed.{view_use};

use crate::name_use::NameUse;
use abel_tree::{Expr, Extension, Member};
use pld_base::OutOfMemory;
use std::alloc::Global;

/// Appends the names that an expression uses in a set with this extension. Calls go as deep as the nestings, however many
/// operators are in a row.
#[cycle(uses)]
fn put_expr<'a>(
    alloc: Global,
    uses: &mut Vec<NameUse<'a>>,
    outer: Option<Extension>,
    expr: &'a Expr,
) -> Result<(), OutOfMemory>
    ensures { OnOk result (map view_use uses.new.items
        ≡ map view_use uses.old.items ++ names_used outer (view expr.now)) }
{
    let mut rights = Vec::new(alloc);
    let mut first = expr;
    'down: while let Expr::Binary {
        sign: _,
        place: _,
        left,
        right,
    } = first
    {
        rights.push(right.get())?;
        first = left.get();
    }
    put_level(alloc, uses, outer, first)?;
    'up: while let Some(right) = rights.pop() {
        put_expr(alloc, uses, outer, right)?;
    }
    Ok(())
}

/// Appends the names of an expression by its parts.
#[cycle(uses)]
fn put_level<'a>(
    alloc: Global,
    uses: &mut Vec<NameUse<'a>>,
    outer: Option<Extension>,
    expr: &'a Expr,
) -> Result<(), OutOfMemory>
    ensures { OnOk result (map view_use uses.new.items
        ≡ map view_use uses.old.items ++ names_used outer (view expr.now)) }
{
    match expr {
        Expr::Number(_) => Ok(()),
        Expr::Special {
            letter: _,
            place: _,
        } => Ok(()),
        Expr::Name { word, extension } => {
            uses.push(NameUse {
                first: word,
                last: None,
                extension: Extension::innermost(*extension, outer),
            })?;
            Ok(())
        }
        Expr::Set {
            place: _,
            members,
            extension,
        } => put_members(
            alloc,
            uses,
            Extension::innermost(*extension, outer),
            members.as_slice(),
        ),
        Expr::Paren { place: _, inner } => put_expr(alloc, uses, outer, inner.get()),
        Expr::Unary {
            sign: _,
            place: _,
            inner,
        } => put_expr(alloc, uses, outer, inner.get()),
        Expr::Binary {
            sign: _,
            place: _,
            left,
            right,
        } => {
            put_expr(alloc, uses, outer, left.get())?;
            put_expr(alloc, uses, outer, right.get())
        }
    }
}

/// Appends the names of the members of a set with this extension.
#[cycle(uses)]
fn put_members<'a>(
    alloc: Global,
    uses: &mut Vec<NameUse<'a>>,
    outer: Option<Extension>,
    members: &'a [Member],
) -> Result<(), OutOfMemory>
    ensures { OnOk result (map view_use uses.new.items ≡ map view_use uses.old.items
        ++ flat_map (member_used outer) (map view_member members.now)) }
{
    for member in members {
        put_member(alloc, uses, outer, member)?;
    }
    Ok(())
}

/// Appends the names of a member of a set with this extension.
#[cycle(uses)]
fn put_member<'a>(
    alloc: Global,
    uses: &mut Vec<NameUse<'a>>,
    outer: Option<Extension>,
    member: &'a Member,
) -> Result<(), OutOfMemory>
    ensures { OnOk result (map view_use uses.new.items
        ≡ map view_use uses.old.items ++ member_used outer (view_member member.now)) }
{
    match member {
        Member::One(expr) => put_expr(alloc, uses, outer, expr),
        Member::Span { first, last } => {
            uses.push(NameUse {
                first,
                last: Some(last),
                extension: outer,
            })?;
            Ok(())
        }
    }
}

/// The names that an expression uses, from the left.
pub fn names_used(alloc: Global, expr: &Expr) -> Result<Vec<NameUse<'_>>, OutOfMemory>
    ensures { IfOk result (λ uses. map view_use uses.items ≡ names_used None (view expr.now)) }
{
    let mut uses = Vec::new(alloc);
    put_expr(alloc, &mut uses, None, expr)?;
    Ok(uses)
}

/// Appends the names that a target uses, with this extension in place of its own.
fn put_target<'a>(
    alloc: Global,
    uses: &mut Vec<NameUse<'a>>,
    extension: Option<Extension>,
    target: &'a Expr,
) -> Result<(), OutOfMemory>
    ensures { OnOk result (map view_use uses.new.items
        ≡ map view_use uses.old.items ++ names_used extension (without_extension (view target.now))) }
{
    match target {
        Expr::Name { word, extension: _ } => {
            uses.push(NameUse {
                first: word,
                last: None,
                extension,
            })?;
            Ok(())
        }
        Expr::Set {
            place: _,
            members,
            extension: _,
        } => put_members(alloc, uses, extension, members.as_slice()),
        _ => put_expr(alloc, uses, extension, target),
    }
}

/// The names that a target uses, with this extension in place of its own.
pub fn target_names_used(
    alloc: Global,
    target: &Expr,
    extension: Option<Extension>,
) -> Result<Vec<NameUse<'_>>, OutOfMemory>
    ensures { IfOk result (λ uses. map view_use uses.items
        ≡ names_used extension (without_extension (view target.now))) }
{
    let mut uses = Vec::new(alloc);
    put_target(alloc, &mut uses, extension, target)?;
    Ok(uses)
}
