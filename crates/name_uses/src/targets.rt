//! The names that expressions name if they are targets.

ghost use Rattle.std.specs.Prelude.{◌≡◌, ◌++◌, IfOk, OnOk, map};
ghost use Rattle.abel_tree.specs.Assigned.{target_extension, without_extension};
ghost use Rattle.abel_tree.specs.Tree.{members_of};
ghost use Rattle.abel_tree.specs.View.{view, view_member};
ghost use Rattle.name_uses.specs.Targets.{targets_in, targets_in_member, targets_in_members};
ghost use Rattle.name_uses.specs.Viewed.{view_use};

use crate::name_use::NameUse;
use abel_tree::{Expr, Extension, Member};
use pld_base::OutOfMemory;
use std::alloc::Global;

/// The extension of a target, which is outside. Takes no memory.
pub fn target_extension(target: &Expr) -> Option<Extension>
    ensures { result ≡ target_extension (view target.now) }
{
    match target {
        Expr::Name { extension, .. } | Expr::Set { extension, .. } => *extension,
        _ => None,
    }
}

/// Appends the names that an expression names itself: none by what has an extension.
#[cycle(targets)]
fn put_targets<'a>(uses: &mut Vec<NameUse<'a>>, expr: &'a Expr) -> Result<(), OutOfMemory>
    ensures { OnOk result (map view_use uses.new.items
        ≡ map view_use uses.old.items ++ targets_in (view expr.now)) }
{
    match expr {
        Expr::Name {
            word,
            extension: None,
        } => {
            uses.push(NameUse {
                first: word,
                last: None,
                extension: None,
            })?;
            Ok(())
        }
        Expr::Set {
            place: _,
            members,
            extension: None,
        } => put_member_targets(uses, members.as_slice()),
        Expr::Paren { place: _, inner } => put_targets(uses, inner.get()),
        _ => Ok(()),
    }
}

/// Appends the names that the members of a set name.
#[cycle(targets)]
fn put_member_targets<'a>(
    uses: &mut Vec<NameUse<'a>>,
    members: &'a [Member],
) -> Result<(), OutOfMemory>
    ensures { OnOk result (map view_use uses.new.items
        ≡ map view_use uses.old.items ++ targets_in_members (members_of (map view_member members.now))) }
{
    for member in members {
        put_targets_in(uses, member)?;
    }
    Ok(())
}

/// Appends the names that a member of a set names.
#[cycle(targets)]
fn put_targets_in<'a>(uses: &mut Vec<NameUse<'a>>, member: &'a Member) -> Result<(), OutOfMemory>
    ensures { OnOk result (map view_use uses.new.items
        ≡ map view_use uses.old.items ++ targets_in_member (view_member member.now)) }
{
    match member {
        Member::One(expr) => put_targets(uses, expr),
        Member::Span { first, last } => {
            uses.push(NameUse {
                first,
                last: Some(last),
                extension: None,
            })?;
            Ok(())
        }
    }
}

/// The names that an expression names if it is a target, from the left.
pub fn targets_in(alloc: Global, expr: &Expr) -> Result<Vec<NameUse<'_>>, OutOfMemory>
    ensures { IfOk result (λ uses. map view_use uses.items ≡ targets_in (view expr.now)) }
{
    let mut uses = Vec::new(alloc);
    put_targets(&mut uses, expr)?;
    Ok(uses)
}

/// The names that the target of an equation names, whose own extension counts for all of it.
pub fn left_side_targets(alloc: Global, target: &Expr) -> Result<Vec<NameUse<'_>>, OutOfMemory>
    ensures { IfOk result (λ uses. map view_use uses.items
        ≡ targets_in (without_extension (view target.now))) }
{
    let mut uses = Vec::new(alloc);
    match target {
        Expr::Name { word, extension: _ } => uses.push(NameUse {
            first: word,
            last: None,
            extension: None,
        })?,
        Expr::Set {
            place: _,
            members,
            extension: _,
        } => put_member_targets(&mut uses, members.as_slice())?,
        _ => put_targets(&mut uses, target)?,
    }
    Ok(uses)
}
