//! Signals as others read them, and what they read.

ghost use Rattle.std.specs.Prelude.{◌≡◌, ℕ, List, length};
ghost use Rattle.gathering.specs.Prelude.{arena, Formula, view_declared, view_meaning, Context, leaf_by, settles, Contribution};
ghost use Rattle.gathering.specs.{AreGiven, contributions_in, IsLinkOf, AreTotalsIn};

use crate::link::Link;
use crate::reads::{both, control_reads, function_reads, nothing};
use crate::signal::Totals;
use abel_tree::{Declared, Meaning};
use bit_expr::{Exprs, Leaf};
use pld_device::{Device, Loaded, cell_on};

/// Whether it is a node or a combinational signal with data, which settles by what it reads.
fn settles(declared: &Declared) -> bool
    ensures { result ≡ settles (view_declared declared.now) }
{
    match declared.meaning {
        Meaning::Pin { .. } => declared.assigned && !declared.is_registered(),
        Meaning::Node(_) => true,
        _ => false,
    }
}

/// The leaf by which a signal is read: the Q of a register, the pin of a combinational signal, the value of a node.
fn leaf_of<D: Device>(device: &Loaded<D>, declared: &Declared) -> Option<Leaf>
    ensures { (d : Context) → d.device ≡ D.table
        → result ≡ leaf_by d (view_declared declared.now) (view_meaning declared.now.meaning) }
{
    match declared.meaning {
        Meaning::Pin { pin, negated: _ } => if declared.is_stored() {
            cell_on::<D>(device, pin).map(|cell| Leaf::Q(cell))
        } else if settles(declared) {
            Some(Leaf::Pin(pin))
        } else {
            None
        },
        Meaning::Node(number) => Some(Leaf::Node(number)),
        _ => None,
    }
}

/// A signal by all that is given to it: it reads what its function and its enable name, and nothing if it is a register.
pub(crate) fn link_of<D: Device>(
    device: &Loaded<D>,
    exprs: &Exprs,
    declared: &Declared,
    totals: &Totals,
) -> Link
    requires { AreTotalsIn (length (arena exprs.now)) totals.now }
    ensures { (d : Context) (first : List Formula) (list : List Contribution) (signal : ℕ) → d.device ≡ D.table
        → AreGiven first (arena exprs.now) list signal totals.now
        → IsLinkOf d (contributions_in first list) signal (view_declared declared.now) result }
{
    Link {
        leaf: leaf_of::<D>(device, declared),
        reads: if settles(declared) {
            both(
                function_reads(exprs, totals.function),
                control_reads(exprs, totals.controls.enable),
            )
        } else {
            nothing()
        },
        stored: declared.is_stored(),
    }
}
