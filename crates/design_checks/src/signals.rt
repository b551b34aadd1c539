//! The first refusal of a design's kinds, nodes, controls and uses.

ghost use Rattle.std.specs.Prelude.{◌≡◌, ◌<◌, All, length, IfOk, IfErr, map};
ghost use Rattle.design_checks.specs.Prelude.{arena, entries_of, first_refusal, view_section, Design, IsContextOf};
ghost use Rattle.set_expr.specs.declared.contributions.Contribution as code;
ghost use Rattle.design_checks.specs.{no_controls, AreToNames, use_order, HasSoundSignals, IsDesignFor, IsSignalRefused};

use crate::fault::DesignFault;
use crate::name_facts::registered_node;
use crate::refused::RefusedUse;
use crate::rule::UseRule;
use crate::rules::{Rule, first_refused};
use crate::spelling::other_spelling;
use crate::uses::first_use;
use abel_tree::earlier;
use name_uses::ModuleParts;
use pld_base::OutOfMemory;
use pld_device::Device;
use section_targets::SectionScope;
use set_expr::Contributions;
use std::alloc::Global;

/// The first extension that a signal does not have, as a target or in a use, or equation that says otherwise than the
/// device does, or is written otherwise.
fn no_control<D: Device>(
    alloc: Global,
    source: &ModuleParts<'_>,
    scope: &SectionScope<'_, D>,
    found: &Contributions,
) -> Result<Option<RefusedUse>, OutOfMemory>
    requires names { AreToNames (length (entries_of scope.now)) found.now.list }
    requires inside { All (λ (c : code.Contribution). c.when.0 < length
        (arena found.now.exprs)) found.now.list }
    ensures { IfOk result (λ r. (d : Design) → IsContextOf D.table scope.now d.context
        → d.sections ≡ map view_section source.now.sections
        → r ≡ first_refusal use_order (no_controls d (arena found.now.exprs) found.now.list)) }
{
    let lacking = first_refused(Rule::Controls, scope, found);
    let others = first_refused(Rule::Levels, scope, found);
    let targets = earlier(lacking, others);
    let unwritten = other_spelling(alloc, scope, source.module().sections.as_slice())?;
    let missing = first_use(alloc, UseRule::Extensions, scope, source)?;
    let sources = earlier(unwritten, missing);
    Ok(earlier(targets, sources))
}

/// The first refusal of a design's kinds, nodes, controls and uses, for a device and what the sections contribute. A kind
/// is asked only if nothing of the kinds before it is refused.
pub fn check_signals<D: Device>(
    alloc: Global,
    source: &ModuleParts<'_>,
    scope: &SectionScope<'_, D>,
    found: &Contributions,
) -> Result<(), DesignFault>
    requires names { AreToNames (length (entries_of scope.now)) found.now.list }
    requires inside { All (λ (c : code.Contribution). c.when.0 < length
        (arena found.now.exprs)) found.now.list }
    ensures ok { IfOk result (λ _. (d : Design)
        → IsDesignFor D.table scope.now source.now found.now d
        → HasSoundSignals d (arena found.now.exprs) found.now.list) }
    ensures err { IfErr result (λ f. (d : Design)
        → IsDesignFor D.table scope.now source.now found.now d
        → IsSignalRefused d (arena found.now.exprs) found.now.list f) }
{
    let kinds = first_refused(Rule::Kinds, scope, found);
    if let Some(it) = kinds {
        return Err(DesignFault::WrongKind(it.place, it.name));
    }
    let nodes = registered_node(scope.scope());
    if let Some(it) = nodes {
        return Err(DesignFault::RegisteredNode(it.place, it.name));
    }
    let controls = no_control(alloc, source, scope, found)?;
    if let Some(it) = controls {
        return Err(DesignFault::NoSuchControl(it.place, it.name));
    }
    let any = first_refused(Rule::DontCares, scope, found);
    if let Some(it) = any {
        return Err(DesignFault::DontCareControl(it.place, it.name));
    }
    let paths = first_use(alloc, UseRule::Columns, scope, source)?;
    match paths {
        Some(it) => Err(DesignFault::NoReadPath(it.place, it.name)),
        None => Ok(()),
    }
}
