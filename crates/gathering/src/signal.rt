//! What all contributions to a signal amount to.

ghost use Rattle.std.specs.Prelude.{length, IfOk, OnOk};
ghost use Rattle.gathering.specs.Prelude.{arena};
ghost use Rattle.abel_tree.specs.declared.words.Extension.TheVariants as extension;
ghost use Rattle.gathering.specs.{AreGiven, IsControlGiven, IsFunctionGiven, AllLieIn, Stands, Throughout};

use crate::given::{first_for, first_place, given_to, has_raw, is_both, is_complement};
use crate::parts::Part::{self, Data, DataIn};
use crate::sums::Step::{NotIf, Or, Unmatched};
use crate::sums::bit_of;
use abel_tree::Extension;
use bit_expr::{Control, Exprs, Function};
use pld_base::{OutOfMemory, Place};
use set_expr::Contribution;
use set_expr::Gives::{Any, One};
use std::alloc::Global;

/// The controls of a signal that have equations, each with the place of its first target.
#[derive(Clone, Copy, PartialEq, Eq)]
pub struct Controls {
    pub enable: Option<Control>,
    pub reset: Option<Control>,
    pub preset: Option<Control>,
}

/// All that is given to a signal: its function, whether this is of the raw input of its register, its
/// controls, and the place of its first data target, if it has one.
#[derive(Clone, Copy, PartialEq, Eq)]
pub struct Totals {
    pub function: Function,
    pub raw: bool,
    pub controls: Controls,
    pub place: Option<Place>,
}

/// The function of a signal. If it is assigned in both polarities this is said of the name, `p or not n` by what is
/// given to the name and what to the complement; that no don't-care table or diagram matches then frees the
/// complement and says nothing of the name.
fn function_of(
    exprs: &mut Exprs,
    list: &[Contribution],
    signal: usize,
) -> Result<Function, OutOfMemory>
    requires { AllLieIn (length (arena exprs.old)) list.now }
    ensures function { IfOk result (λ f. Throughout (arena exprs.old) (arena exprs.new) list.now (λ first last.
        IsFunctionGiven first last list.now signal f)) }
    ensures stands { OnOk result (Stands (arena exprs.old) (arena exprs.new)) }
{
    if is_both(list, signal) {
        let steps = [
            Or(DataIn(false, One)),
            NotIf(true),
            Or(DataIn(true, One)),
            Or(DataIn(true, Any)),
            Unmatched,
        ];
        let one = bit_of(exprs, list, signal, &steps)?;
        let steps = [Or(DataIn(false, Any)), NotIf(true), Or(DataIn(true, One))];
        let any = bit_of(exprs, list, signal, &steps)?;
        Ok(Function {
            one,
            any,
            complement: false,
        })
    } else {
        let one = bit_of(exprs, list, signal, &[Or(Data(One))])?;
        let any = bit_of(exprs, list, signal, &[Or(Data(Any)), Unmatched])?;
        Ok(Function {
            one,
            any,
            complement: is_complement(list, signal),
        })
    }
}

/// A control of a signal: the sum of all equations for it, or its complement, as the first says.
fn control_of(
    exprs: &mut Exprs,
    list: &[Contribution],
    signal: usize,
    control: Extension,
) -> Result<Option<Control>, OutOfMemory>
    requires { AllLieIn (length (arena exprs.old)) list.now }
    ensures control { IfOk result (λ r. Throughout (arena exprs.old) (arena exprs.new) list.now (λ first last.
        IsControlGiven first last list.now signal control r)) }
    ensures stands { OnOk result (Stands (arena exprs.old) (arena exprs.new)) }
{
    match first_for(list, signal, control) {
        None => Ok(None),
        Some(first) => {
            let steps = [NotIf(first.complement), Or(Part::Control(control))];
            let bit = bit_of(exprs, list, signal, &steps)?;
            Ok(Some(Control {
                bit,
                place: first.place,
            }))
        }
    }
}

/// All that is given to a signal.
fn totals_of(exprs: &mut Exprs, list: &[Contribution], signal: usize) -> Result<Totals, OutOfMemory>
    requires { AllLieIn (length (arena exprs.old)) list.now }
    ensures given { IfOk result (λ r. Throughout (arena exprs.old) (arena exprs.new) list.now (λ first last.
        AreGiven first last list.now signal r)) }
    ensures stands { OnOk result (Stands (arena exprs.old) (arena exprs.new)) }
{
    let function = function_of(exprs, list, signal)?;
    let enable = control_of(exprs, list, signal, Extension::Oe)?;
    let reset = control_of(exprs, list, signal, Extension::Ar)?;
    let preset = control_of(exprs, list, signal, Extension::Sp)?;
    Ok(Totals {
        function,
        raw: has_raw(list, signal),
        controls: Controls {
            enable,
            reset,
            preset,
        },
        place: first_place(list, signal),
    })
}

/// All that a list of contributions gives to a signal, as bits of the arena that theirs are in. Goes over the
/// list once, and then over the signal's own contributions.
pub fn sum_up(
    alloc: Global,
    exprs: &mut Exprs,
    list: &[Contribution],
    signal: usize,
) -> Result<Totals, OutOfMemory>
    requires { AllLieIn (length (arena exprs.old)) list.now }
    ensures given { IfOk result (λ r. Throughout (arena exprs.old) (arena exprs.new) list.now (λ first last.
        AreGiven first last list.now signal r)) }
    ensures stands { OnOk result (Stands (arena exprs.old) (arena exprs.new)) }
{
    let own = given_to(alloc, list, signal)?;
    totals_of(exprs, &own, signal)
}
