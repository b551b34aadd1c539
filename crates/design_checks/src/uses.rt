//! The first refused use of a source.

ghost use Rattle.std.specs.Prelude.{◌≡◌, IfOk, map};
ghost use Rattle.design_checks.specs.Prelude.{flat_map, view_section, Context, Design, view_part, view_role, view_use, IsContextOf};
ghost use Rattle.design_checks.specs.{Knows, first_refused, is_read, part_uses, uses_used, refused_uses, first_use};

use crate::learning::learn_names;
use crate::names::KeptUses;
use crate::positions::positions_of;
use crate::reads::first_used;
use crate::refused::{RefusedUse, use_at};
use crate::rule::UseRule;
use abel_tree::{Extension, earlier};
use name_uses::{ModuleParts, NameUse, Part, Role, target_extension};
use pld_base::OutOfMemory;
use pld_device::Device;
use section_targets::SectionScope;
use std::alloc::Global;

/// The first refused use of an expression with these names.
fn first_of_uses(
    alloc: Global,
    names: &KeptUses<'_, '_>,
    uses: &[NameUse<'_>],
) -> Result<Option<RefusedUse>, OutOfMemory>
    ensures { IfOk result (λ f. (d : Context) → Knows d names.now
        → f ≡ first_refused names.now.rule d (flat_map (uses_used d.known) (map view_use uses.now))) }
{
    let mut first = None;
    for used in uses {
        let signal = first_used(alloc, names, used, None)?;
        first = earlier(first, use_at(used.first.place, signal));
    }
    Ok(first)
}

/// Whether what is in a section in this role reads signals: a value, what is read, and the registers of a diagram. The
/// value of a clock is compared with what the device does anyway, and that of the enable of signals each of which a pin
/// enables; an ordinary target isn't gone through.
fn is_read(alloc: Global, names: &KeptUses<'_, '_>, role: Role<'_>) -> Result<bool, OutOfMemory>
    ensures { IfOk result (λ b. (d : Context) → Knows d names.now
        → b ≡ is_read d (view_role role.entry)) }
{
    match role {
        Role::Value(target) => match target_extension(target) {
            Some(Extension::Clk) => Ok(false),
            Some(Extension::Oe) => Ok(!positions_of(alloc, names, target)?.by_pin),
            _ => Ok(true),
        },
        Role::Read | Role::Registers => Ok(true),
        Role::Target(_) | Role::Outputs(_) | Role::Entry => Ok(false),
    }
}

/// The first refused use of a part.
fn first_of_part(
    alloc: Global,
    names: &KeptUses<'_, '_>,
    part: &Part<'_>,
) -> Result<Option<RefusedUse>, OutOfMemory>
    ensures { IfOk result (λ f. (d : Context) → Knows d names.now
        → f ≡ first_refused names.now.rule d (part_uses d (view_part part.now))) }
{
    if is_read(alloc, names, part.role)? {
        first_of_uses(alloc, names, part.uses.as_slice())
    } else {
        Ok(None)
    }
}

/// Of the parts of a section.
fn first_of_parts(
    alloc: Global,
    names: &KeptUses<'_, '_>,
    parts: &[Part<'_>],
) -> Result<Option<RefusedUse>, OutOfMemory>
    ensures { IfOk result (λ f. (d : Context) → Knows d names.now
        → f ≡ first_refused names.now.rule d (flat_map (part_uses d) (map view_part parts.now))) }
{
    let mut first = None;
    for part in parts {
        first = earlier(first, first_of_part(alloc, names, part)?);
    }
    Ok(first)
}

/// The first use that a rule refuses, for a device and the names of a source. None if there isn't one; the only refusal is
/// lack of memory.
pub fn first_use<D: Device>(
    alloc: Global,
    rule: UseRule,
    scope: &SectionScope<'_, D>,
    source: &ModuleParts<'_>,
) -> Result<Option<RefusedUse>, OutOfMemory>
    ensures { IfOk result (λ r. (d : Design) → IsContextOf D.table scope.now d.context
        → d.sections ≡ map view_section source.now.sections
        → r ≡ first_use (refused_uses rule d)) }
{
    let known = scope.scope();
    let learnt = learn_names::<D>(alloc, scope.device(), rule, known)?;
    let names = KeptUses {
        rule,
        scope: known,
        list: learnt.as_slice(),
    };
    let mut first = None;
    for section in source.sections() {
        first = earlier(
            first,
            first_of_parts(alloc, &names, section.parts.as_slice())?,
        );
    }
    Ok(first)
}
