//! The first reset, or preset, of a source.

ghost use Rattle.std.specs.Prelude.{◌≡◌};
ghost use Rattle.reports.specs.Prelude.{is_before};
ghost use Rattle.abel_tree.specs.FirstRefusal as first;
ghost use Rattle.reports.specs.Fits.{control_order, first_own};

use bit_expr::{Control, Netlist};
use fitter::{SharedControl, own_control};

/// Whether a control's first target precedes that of another.
#[tactic(auto, using(crate::proofs::ControlOrder::before_by))]
fn is_before(here: &Control, there: &Control) -> bool
    ensures { result ≡ is_before control_order here.now there.now }
{
    if here.place.line != there.place.line {
        here.place.line < there.place.line
    } else {
        here.place.column < there.place.column
    }
}

/// The first of two controls that may be none.
fn earlier(left: Option<Control>, right: Option<Control>) -> Option<Control>
    ensures { result ≡ first.earlier control_order left right }
{
    match (left, right) {
        (Some(here), Some(there)) => {
            if is_before(&there, &here) {
                Some(there)
            } else {
                Some(here)
            }
        }
        (Some(here), None) => Some(here),
        (None, right) => right,
    }
}

/// Of the cells' own resets, or presets, that whose first target is first in the source.
pub(crate) fn first_own(net: &Netlist, which: SharedControl) -> Option<Control>
    ensures { result ≡ first_own which net.now }
{
    let mut found = None;
    for wanted in net.cells.as_slice() {
        found = earlier(found, own_control(which, wanted));
    }
    found
}
