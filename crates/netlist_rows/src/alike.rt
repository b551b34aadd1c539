//! Whether a device with its fuses does what its module says.

ghost use Rattle.std.specs.Prelude.{◌≡◌, length};
ghost use Rattle.netlist_rows.specs.Prelude.{ModuleTree, plain_netlist, IsSoundNetlist, MeansTheSame, netlist_of};
ghost use Rattle.pld_machine.specs.Order.{IsOrdered};

use crate::drawing::ModuleNet;
use device_sim::load;
use pld_base::Point;
use pld_device::{Device, Fuses, Loaded};
use pld_machine::{Logic, rest, step};
use source_machine::SourceLogic;
use std::alloc::Global;

/// No device of the tests has more cells, nor more pins.
const STATES: u32 = 1 << 3;

const LEVELS: u32 = 1 << 11;

/// The clock is pin 1.
const CLOCK: u32 = 1 << 1;

/// The same pins and the same Qs.
fn are_same(here: &Point, there: &Point) -> bool {
    here.pins == there.pins && here.q == there.q
}

/// Whether both settle alike, and step alike as the clock's pin changes.
fn turn_alike<A: Logic, B: Logic>(left: &A, right: &B, outside: u32, stored: u32) -> bool
    requires left { IsOrdered (A.meaning left.now) }
    requires right { IsOrdered (B.meaning right.now) }
{
    let here = rest(left, outside, stored);
    let there = rest(right, outside, stored);
    let turned = outside ^ CLOCK;
    are_same(&here, &there) && are_same(&step(left, &here, turned), &step(right, &there, turned))
}

/// Whether the device does as the module, with any as 0 and with the free registers of these cells inverted, from each state
/// and at all outside levels.
pub(crate) fn runs_alike<D: Device>(
    alloc: Global,
    device: &Loaded<D>,
    made: &ModuleNet,
    fuses: &Fuses,
    inverted: u32,
) -> Option<bool>
    ghost source: { ModuleTree }
    requires sound { IsSoundNetlist D.table made.now.net }
    requires module { plain_netlist made.now.net ≡ netlist_of D.table source }
    requires same { MeansTheSame D.table source (plain_netlist made.now.net) }
    requires size { length fuses.now ≡ D.table.fuses }
{
    let Ok(burned) = load::<D>(alloc, device, fuses) else {
        return None;
    };
    let Ok(source) = SourceLogic::<D>::new(alloc, device, &made.net, inverted) else {
        return None;
    };
    for stored in 0..STATES {
        for levels in 0..LEVELS {
            if !turn_alike(&burned, &source, levels << 1, stored) {
                return Some(false);
            }
        }
    }
    Some(true)
}
