//! Which signals names read in vain.

ghost use Rattle.std.specs.Prelude.{◌≡◌, IfOk, map};
ghost use Rattle.design_checks.specs.Prelude.{flat_map, Context, view_use};
ghost use Rattle.design_checks.specs.{Knows, first_read, reads_used};

use crate::names::KeptUses;
use abel_tree::Extension;
use name_uses::{NameUse, range_list};
use pld_base::OutOfMemory;
use std::alloc::Global;

/// The first signal that is read in vain if an expression uses names, in a set with this extension.
pub(crate) fn first_used(
    alloc: Global,
    names: &KeptUses<'_, '_>,
    used: &NameUse<'_>,
    outer: Option<Extension>,
) -> Result<Option<usize>, OutOfMemory>
    ensures { IfOk result (λ s. (d : Context) → Knows d names.now
        → s ≡ first_read names.now.rule d (reads_used d.known outer (view_use used.now))) }
{
    let extension = Extension::innermost(used.extension, outer);
    let first = used.first.text.bytes();
    match used.last {
        None => Ok(names.read(first, extension)),
        Some(last) => {
            let list = range_list(alloc, first, last.text.bytes())?;
            let mut signal = None;
            for name in &list {
                signal = signal.or(names.read(name.as_slice(), extension));
            }
            Ok(signal)
        }
    }
}

/// The first signal that an expression with these names reads in vain, if it is with this extension.
pub(crate) fn first_in(
    alloc: Global,
    names: &KeptUses<'_, '_>,
    uses: &[NameUse<'_>],
    extension: Option<Extension>,
) -> Result<Option<usize>, OutOfMemory>
    ensures { IfOk result (λ s. (d : Context) → Knows d names.now
        → s ≡ first_read names.now.rule d (flat_map (reads_used d.known extension) (map view_use uses.now))) }
{
    let mut first = None;
    for used in uses {
        first = first.or(first_used(alloc, names, used, extension)?);
    }
    Ok(first)
}
