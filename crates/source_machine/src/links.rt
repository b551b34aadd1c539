//! The signals of a netlist, cells and then nodes, as others wait for them, and what they read.

ghost use Rattle.std.specs.Prelude.{◌+◌, ◌<◌, IfOk, Some, length};
ghost use Rattle.source_machine.specs.Prelude.{arena, AreReads, plain_netlist, plain_wanted, cell_names, IsCellIn, IsSoundNetlist};
ghost use Rattle.source_machine.specs.NetlistLookups.{IsSignalOrder};
ghost use Rattle.source_machine.specs.SignalLinks.{IsLinkOf, AreSignalLinks};

use crate::cells::{cell_of, cell_wanted, node_function, stores};
use arrayvec::ArrayVec;
use bit_expr::{CellWanted, Exprs, Leaf, Netlist, Reads};
use gathering::{Link, both, control_reads, function_reads, nothing, read_order};
use pld_base::OutOfMemory;
use pld_device::{Device, Loaded};
use std::alloc::Global;

/// What an assigned cell reads while it settles; a register reads by its enable alone.
fn wanted_reads(exprs: &Exprs, wanted: &CellWanted) -> Reads
    requires { IsCellIn (length (arena exprs.now)) wanted.now }
    ensures { AreReads (λ leaf. cell_names (Some (plain_wanted (arena exprs.now) wanted.now)) leaf) result }
{
    let enable = control_reads(exprs, wanted.enable);
    if wanted.registered {
        enable
    } else {
        both(enable, function_reads(exprs, wanted.function))
    }
}

/// A cell; nothing waits for a register.
fn cell_link<D: Device>(device: &Loaded<D>, net: &Netlist, cell: u8) -> Link
    requires sound { IsSoundNetlist D.table net.now }
    requires cell { cell < length D.table.cells }
    ensures { IsLinkOf D.table (plain_netlist net.now) cell result }
{
    let stored = stores::<D>(device, net, cell);
    Link {
        leaf: if stored {
            None
        } else {
            Some(Leaf::Pin(cell_of::<D>(device, cell).pin))
        },
        reads: match cell_wanted(net, cell) {
            None => nothing(),
            Some(wanted) => wanted_reads(&net.exprs, &wanted),
        },
        stored,
    }
}

/// A node.
fn node_link<D: Device>(net: &Netlist, node: u8) -> Link
    requires sound { IsSoundNetlist D.table net.now }
    requires node { node < length net.now.nodes }
    ensures { IsLinkOf D.table (plain_netlist net.now) (length D.table.cells + node) result }
{
    Link {
        leaf: Some(Leaf::Node(node)),
        reads: function_reads(&net.exprs, node_function(net, node)),
        stored: false,
    }
}

/// All signals.
fn signal_links<D: Device>(
    alloc: Global,
    device: &Loaded<D>,
    net: &Netlist,
) -> Result<Vec<Link>, OutOfMemory>
    requires { IsSoundNetlist D.table net.now }
    ensures { IfOk result (λ links. AreSignalLinks D.table (plain_netlist net.now) links.items) }
{
    let mut links = Vec::new(alloc);
    for cell in 0..device.cells() {
        links.push(cell_link::<D>(device, net, cell))?;
    }
    for node in 0..net.nodes.as_slice().len() {
        links.push(node_link::<D>(net, node as u8))?;
    }
    Ok(links)
}

/// The signals in an order in which each waits for earlier ones alone.
pub(crate) fn signal_order<D: Device>(
    alloc: Global,
    device: &Loaded<D>,
    net: &Netlist,
) -> Result<ArrayVec<u8, 256>, OutOfMemory>
    requires { IsSoundNetlist D.table net.now }
    ensures { IfOk result (λ order.
        IsSignalOrder D.table (plain_netlist net.now) order.items) }
{
    let links = signal_links::<D>(alloc, device, net)?;
    read_order(alloc, &links)
}
