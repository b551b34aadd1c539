//! Which pairs of columns carry complements.

ghost use Rattle.std.specs.Prelude.{◌≡◌, ◌<◌, false, get_or, length};
ghost use Rattle.pld_device.specs.declared.carry.Carry.TheVariants as carry;
ghost use Rattle.fitter.specs.Prelude.{stores_by, plain_netlist, netlist_stores};
ghost use Rattle.fitter.specs.Plans.{IsTurnMask, carries_complement};

use crate::shared::{cell_wanted, pair_count};
use bit_expr::Netlist;
use pld_base::with_level;
use pld_device::{Carry, Device, Kinds, Loaded};

/// Whether a cell of these kinds is a register if it is assigned nothing.
fn must_register(kinds: Kinds) -> bool
    ensures { result ≡ stores_by kinds false }
{
    match kinds {
        Kinds::Combinational => false,
        Kinds::Registered => true,
        Kinds::Either => false,
    }
}

/// Whether the netlist has a register in the cell.
fn is_register<D: Device>(device: &Loaded<D>, net: &Netlist, cell: u8) -> bool
    requires { cell < length D.table.cells }
    ensures { result ≡ netlist_stores D.table (plain_netlist net.now) cell }
{
    match cell_wanted(net, cell) {
        Some(wanted) => wanted.registered,
        None => must_register(device.cell(cell).kinds),
    }
}

/// Whether the pair carries the complement of what its leaf has.
fn is_turned<D: Device>(device: &Loaded<D>, net: &Netlist, pair: u8) -> bool
    requires { pair < length D.table.pairs }
    ensures { result ≡ carries_complement D.table (plain_netlist net.now) (get_or D.table.pairs pair (carry.Pin 0)) }
{
    match device.carries(u16::from(pair)) {
        Carry::Pin(_) => false,
        Carry::Cell(cell) => is_register::<D>(device, net, cell),
    }
}

/// Bit v says that pair v carries the complement of what its leaf has, as the pair of a register does.
pub fn turn_mask<D: Device>(device: &Loaded<D>, net: &Netlist) -> u32
    ensures { IsTurnMask D.table (plain_netlist net.now) result }
{
    let mut mask = 0;
    for pair in 0..pair_count::<D>(device) {
        let on = is_turned::<D>(device, net, pair);
        mask = with_level(mask, pair, on);
    }
    mask
}
