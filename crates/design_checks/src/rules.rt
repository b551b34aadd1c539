//! For which targets a design is refused.

ghost use Rattle.std.specs.Prelude.{◌≡◌, ◌<◌, All, length};
ghost use Rattle.design_checks.specs.Prelude.{arena, entries_of, view_declared, first_refusal};
ghost use Rattle.set_expr.specs.declared.contributions.Contribution as code;
ghost use Rattle.design_checks.specs.{AreToNames, lacks_control, use_order, refuses, targets_refused};

use crate::compared::says_always;
use crate::name_facts::has_wrong_kind;
use crate::refused::{RefusedUse, told_if};
use abel_tree::{Declared, Extension, Meaning, earlier};
use bit_expr::Exprs;
use pld_device::{Device, Loaded};
use section_targets::SectionScope;
use set_expr::{Contribution, Contributions, Gives};

/// What is asked of each target.
#[derive(Clone, Copy, PartialEq, Eq)]
pub enum Rule {
    /// Data go to a registered signal on a cell that can register, or to a combinational one on a cell that needn't.
    Kinds,
    /// A control is one that its signal has.
    Controls,
    /// An equation for a clock is the level of the device's clock, and one for the enable of a cell that a pin enables is
    /// the complement of that pin's level; neither is in a diagram. Parentheses, constants and pairs of complements have
    /// no bit of their own; nor has what folds, which `other_spelling` refuses.
    Levels,
    /// No control is assigned by `?=`.
    DontCares,
}

/// Whether a signal lacks what the extension names; a node has nothing but its value.
fn lacks_control<D: Device>(
    device: &Loaded<D>,
    declared: &Declared,
    extension: Option<Extension>,
) -> bool
    ensures { result ≡ lacks_control D.table (view_declared declared.now) extension }
{
    match declared.meaning {
        Meaning::Pin { .. } => match extension {
            Some(Extension::Ar) => !declared.is_stored() || device.reset().is_none(),
            Some(Extension::Sp) => !declared.is_stored() || device.preset().is_none(),
            Some(Extension::Clk) => !declared.is_stored(),
            Some(Extension::D) => !declared.is_stored(),
            _ => false,
        },
        Meaning::Node(_) => extension.is_some(),
        _ => false,
    }
}

/// Whether a rule refuses one contribution to this name.
fn refuses<D: Device>(
    device: &Loaded<D>,
    rule: Rule,
    exprs: &Exprs,
    declared: &Declared,
    given: &Contribution,
) -> bool
    requires { given.now.when.0 < length (arena exprs.now) }
    ensures { result ≡ refuses D.table (arena exprs.now) rule
        (view_declared declared.now) given.now }
{
    let extension = given.target.extension;
    match rule {
        Rule::Kinds => Extension::is_data(extension) && has_wrong_kind::<D>(device, declared),
        Rule::Controls => lacks_control::<D>(device, declared, extension),
        Rule::Levels => !says_always::<D>(device, exprs, declared, given),
        Rule::DontCares => !Extension::is_data(extension) && matches!(given.what, Gives::Any),
    }
}

/// The first target that a rule refuses of what the sections contribute. Takes no memory.
pub fn first_refused<D: Device>(
    rule: Rule,
    scope: &SectionScope<'_, D>,
    found: &Contributions,
) -> Option<RefusedUse>
    requires names { AreToNames (length (entries_of scope.now)) found.now.list }
    requires inside { All (λ (c : code.Contribution). c.when.0 < length
        (arena found.now.exprs)) found.now.list }
    ensures { result ≡ first_refusal use_order (targets_refused
        (refuses D.table (arena found.now.exprs) rule) (entries_of scope.now) found.now.list) }
{
    let names = scope.scope().list();
    let mut first = None;
    for given in found.list.as_slice() {
        let declared = &names[given.target.signal];
        let refused = refuses::<D>(scope.device(), rule, &found.exprs, declared, given);
        first = earlier(first, told_if(refused, given.place, given.target.signal));
    }
    first
}
