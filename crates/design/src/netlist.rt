//! The netlist of a module, or the first refusal of its design.

ghost use Rattle.std.specs.Prelude.{◌≡◌, IfOk, IfErr, length};
ghost use Rattle.design.specs.Prelude.{arena, entries_of, design_of, names_of, given_formulas, given};
ghost use Rattle.abel_tree.specs.View.{view_module};
ghost use Rattle.gathering.specs.Parts.{AllLieIn};
ghost use Rattle.design.specs.{IsAccepted, IsDesignRefused, IsGathered};

use crate::chains::check_chains;
use crate::laws::unrefused_is_takeable;
use abel_tree::Names;
use bit_expr::Netlist;
use design_checks::{DesignFault, check_signals};
use gathering::{Gathered, gather_up};
use name_uses::ModuleParts;
use netlist_laws::{netlist_is_sound, netlist_means_the_same};
use pld_device::Device;
use section_targets::SectionScope;
use set_expr::Contributions;
use std::alloc::Global;

/// The netlist of a module for a device, by what its sections contribute, or the first refusal of the design. Kinds of
/// refusals are in the order of `DesignFault`, those of one kind by place; nothing of the contributions returns.
///
/// The names are those that `declare` answers for the module, and the contributions those that its sections append.
pub fn gather<D: Device>(
    alloc: Global,
    source: &ModuleParts<'_>,
    scope: &SectionScope<'_, D>,
    found: Contributions,
) -> Result<Netlist, DesignFault>
    requires names { entries_of scope.now ≡ names_of D.table (view_module source.now) }
    requires accepted { IsAccepted (design_of D.table (view_module source.now)) }
    requires gives { given found ≡ given_formulas (design_of D.table (view_module source.now)) }
    requires inside { AllLieIn (length (arena found.exprs)) found.list }
    ensures gathered { IfOk result (IsGathered D.table (view_module source.now) (arena found.exprs) found.list) }

    // only lack of memory precedes a refusal
    ensures refused { IfErr result (λ f. IsDesignRefused
        (design_of D.table (view_module source.now)) (arena found.exprs) found.list f) }
{
    unrefused_is_takeable();
    netlist_is_sound();
    netlist_means_the_same();
    let names = scope.scope().names();
    check_signals::<D>(alloc, source, scope, &found)?;
    let Gathered {
        net,
        signals,
        links,
    } = gather_up::<D>(alloc, scope.device(), names, found)?;
    check_chains(alloc, names, &net, signals.as_slice(), links.as_slice())?;
    Ok(net)
}
