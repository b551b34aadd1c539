//! What may be assigned, and how.

ghost use Rattle.std.specs.Prelude.{◌≡◌, List, ◌++◌, length, map, IfOk, OnOk};
ghost use Rattle.section_targets.specs.Prelude.{entries_of, view_meaning, view_declared, first_refusal, Context, IsContextOf, section_order};
ghost use Rattle.section_targets.specs.{is_output_kind, is_output, no_output, mixed, is_against_kind, manner_of, aims_refused, AreFirsts, AreNamed};
ghost use Rattle.section_targets.specs.declared.manner.Manner.{Manner};

use crate::aim::Aim;
use crate::assigned::Assigned;
use crate::manner::{Manner, Way};
use abel_tree::{Declared, Extension, Meaning, earlier};
use pld_base::{OutOfMemory, Place};
use pld_device::{Device, Loaded, cell_on};
use set_expr::{Scope, SectionFault};

/// A node, or the pin of a cell.
fn is_assignable<D: Device>(device: &Loaded<D>, meaning: &Meaning) -> bool
    ensures { result ≡ is_output_kind D.table (view_meaning meaning.now) }
{
    match meaning {
        Meaning::Pin { pin, negated: _ } => cell_on::<D>(device, *pin).is_some(),
        Meaning::Node(_) => true,
        Meaning::Constant(_) => false,
        Meaning::DeviceName => false,
    }
}

/// Whether the signal, or what the extension names of it, is an output; `.Q`, `.FB` and `.PIN` are no targets.
fn may_take<D: Device>(
    device: &Loaded<D>,
    declared: &Declared,
    extension: Option<Extension>,
) -> bool
    ensures { result ≡ is_output D.table (view_declared declared.now) extension }
{
    is_assignable::<D>(device, &declared.meaning)
        && !matches!(
            extension,
            Some(Extension::Q | Extension::Fb | Extension::Pin)
        )
        && (Extension::is_data(extension) || declared.assigned)
}

/// Data on the clock of a combinational signal and not of a registered one, or a control on the clock.
fn opposes_kind(declared: &Declared, manner: Manner) -> bool
    ensures { result ≡ is_against_kind (view_declared declared.now) manner }
{
    if Extension::is_data(manner.extension) {
        declared.is_registered() != manner.is_clocked()
    } else {
        manner.clocked
    }
}

/// What is refused of one signal of a target: as no output, which is first at its place, or as assigned in two ways.
fn refuse_aim<D: Device>(
    device: &Loaded<D>,
    before: &Assigned,
    declared: &Declared,
    place: Place,
    manner: Manner,
) -> Option<SectionFault>
    ensures { result ≡ first_refusal section_order (no_output D.table (view_declared declared.now) place manner ++ mixed before.now (view_declared declared.now) place manner) }
{
    if !may_take::<D>(device, declared, manner.extension) {
        return Some(SectionFault::NotAnOutput(place, Some(manner.signal)));
    }
    if manner.differs_from(before.first(manner)) || opposes_kind(declared, manner) {
        return Some(SectionFault::MixedAssignment(place, manner.signal));
    }
    None
}

/// Checks the signals of a target that are assigned in this way against what was assigned before, and notes how they
/// are assigned. The first refusal by place occurs.
pub fn check_aims<D: Device>(
    device: &Loaded<D>,
    scope: &Scope<'_>,
    way: Way,
    aims: &[Aim],
    before: &mut Assigned,
) -> Result<Option<SectionFault>, OutOfMemory>
    requires { AreNamed (length (entries_of scope.now)) aims.now }
    ensures fault { IfOk result (λ f. (d : Context) (all : List Manner)
        → IsContextOf D.table scope.now d → AreFirsts before.old all
        → f ≡ first_refusal section_order
        (aims_refused d all way.extension way.complement way.clocked aims.now)) }
    ensures before { OnOk result ((all : List Manner) → AreFirsts before.old all
        → AreFirsts before.new
        (all ++ map (manner_of way.extension way.complement way.clocked) aims.now)) }
{
    let mut fault = None;
    for aim in aims {
        let manner = Manner {
            signal: aim.signal,
            extension: way.extension,
            complement: way.complement,
            clocked: way.clocked,
        };
        let declared = &scope.list()[aim.signal];
        fault = earlier(
            fault,
            refuse_aim::<D>(device, before, declared, aim.place, manner),
        );
        before.note(manner)?;
    }
    Ok(fault)
}
