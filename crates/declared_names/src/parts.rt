//! What the parts of sections assign, and what they read.

ghost use Rattle.std.specs.Prelude.{◌≡◌, IfOk, OnOk, map};
ghost use Rattle.declared_names.specs.Prelude.{flat_map, view, view_part, view_use};
ghost use Rattle.declared_names.specs.{AreMarked, assigned_names, part_gives, part_names, raw_names};

use crate::following::Follow;
use crate::marks::Mark;
use crate::numbers::FirstNames;
use abel_tree::{Expr, Extension, Sign};
use name_uses::{
    NameUse, Part, Role, left_side_targets, target_extension, target_names_used, targets_in,
};
use pld_base::OutOfMemory;
use std::alloc::Global;

/// The names that an equation assigns, if its target is data.
fn assigned_uses(alloc: Global, target: &Expr) -> Result<Vec<NameUse<'_>>, OutOfMemory>
    ensures { IfOk result (λ uses. map view_use uses.items ≡ assigned_names (view target.now)) }
{
    if !Extension::is_data(target_extension(target)) {
        return Ok(Vec::new(alloc));
    }
    left_side_targets(alloc, target)
}

/// The names that the target of a raw input would read as Q. Its own extension counts for all of it.
fn raw_uses(alloc: Global, target: &Expr) -> Result<Vec<NameUse<'_>>, OutOfMemory>
    ensures { IfOk result (λ uses. map view_use uses.items ≡ raw_names (view target.now)) }
{
    if !Extension::is_raw(target_extension(target)) {
        return Ok(Vec::new(alloc));
    }
    target_names_used(alloc, target, Some(Extension::Q))
}

/// What a part assigns, as a target of data, the outputs of a table or the registers of a diagram, and whether on the
/// clock; or what it reads, of which what is read as Q says so itself.
fn part_names<'a>(
    alloc: Global,
    part: &Part<'a>,
    follow: Follow,
) -> Result<(bool, Vec<NameUse<'a>>), OutOfMemory>
    ensures strong { IfOk result (λ named. named.0 ≡ (part_names follow (view_part part.now)).strong) }
    ensures uses { IfOk result (λ named. map view_use named.1.items ≡ (part_names follow (view_part part.now)).uses) }
{
    match follow {
        Follow::Targets => match part.role {
            Role::Target(sign) => {
                let clocked = matches!(sign, Sign::Clocked | Sign::ClockedAny);
                let strong = Extension::is_raw(target_extension(part.expr)) || clocked;
                Ok((strong, assigned_uses(alloc, part.expr)?))
            }
            Role::Outputs(clocked) => Ok((clocked, targets_in(alloc, part.expr)?)),
            Role::Registers => Ok((true, targets_in(alloc, part.expr)?)),
            _ => Ok((false, Vec::new(alloc))),
        },
        Follow::Reads => match part.role {
            Role::Target(_) => Ok((false, raw_uses(alloc, part.expr)?)),
            Role::Value(_) | Role::Read => {
                Ok((false, Vec::from_slice(alloc, part.uses.as_slice())?))
            }
            _ => Ok((false, Vec::new(alloc))),
        },
    }
}

impl FirstNames<'_> {
    /// Marks what the parts of a section assign, or what they read, strongly that whose Q is read.
    pub(crate) fn mark_parts(
        &self,
        alloc: Global,
        marks: &mut Vec<Mark>,
        parts: &[Part<'_>],
        follow: Follow,
    ) -> Result<(), OutOfMemory>
        ensures { OnOk result (AreMarked self.now marks.old.items marks.new.items
            (λ of. flat_map (part_gives follow of) (map view_part parts.now))) }
    {
        for part in parts {
            let (strong, uses) = part_names(alloc, part, follow)?;
            self.mark_uses(alloc, marks, strong, uses.as_slice())?;
        }
        Ok(())
    }
}
