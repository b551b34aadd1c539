//! Netlists of a few names of the sample device.

ghost use Rattle.netlist_rows.specs.Prelude.{sample};
ghost use Rattle.netlist_rows.specs.Drawn.{IsDrawn};

use crate::drawing::{Drawn, draw};
use crate::places::{put_number, put_place, put_word};
use crate::sources::row_module;
use bit_expr::{CellWanted, Leaf, Netlist};
use gathering::{Gathered, Link, gather_up};
use pld_device::{Sample, load};
use std::alloc::Global;
use test_rows::Found;

/// What is asked of a register: of its name and its form.
fn put_register(wanted: &CellWanted, found: &mut Found) {
    put_word("register", found);
    if wanted.negated {
        put_word("negated", found);
    }
    if wanted.raw {
        put_word("raw", found);
    }
    if wanted.buffer {
        put_word("buffer", found);
    }
    if wanted.free {
        put_word("free", found);
    }
}

/// What is asked of a cell.
fn put_cell(wanted: &CellWanted, found: &mut Found) {
    put_word("cell", found);
    put_number(usize::from(wanted.cell), found);
    put_word("name", found);
    put_number(wanted.name, found);
    put_word("at", found);
    put_place(wanted.place, found);
    if wanted.registered {
        put_register(wanted, found);
    }
    put_word("one", found);
    put_number(wanted.function.one.0, found);
    if let Some(enable) = wanted.enable {
        put_word("enable at", found);
        put_place(enable.place, found);
    }
    found.text(";")
}

/// Its nodes and its cells, and the pairs of columns of pins 2 and 3 and of cell 1.
fn put_net(net: &Netlist, found: &mut Found) {
    for node in net.nodes.as_slice() {
        put_word(
            if node.complement {
                "complement;"
            } else {
                "node;"
            },
            found,
        );
    }
    for wanted in net.cells.as_slice() {
        put_cell(wanted, found);
    }
    put_word("pairs", found);
    put_number(usize::from(net.pair_of_pin[2]), found);
    put_number(usize::from(net.pair_of_pin[3]), found);
    put_number(usize::from(net.pair_of_cell[1]), found);
    found.text(";")
}

/// The leaf by which a signal is read.
fn put_leaf(link: &Link, found: &mut Found) {
    let (kind, number) = match link.leaf {
        Some(Leaf::Pin(pin)) => ("pin", pin),
        Some(Leaf::Q(cell)) => ("q", cell),
        Some(Leaf::Node(node)) => ("node", node),
        None => ("none", 0),
    };
    put_word(kind, found);
    put_number(usize::from(number), found)
}

fn gathered_up(alloc: Global, drawn: Drawn) -> Option<Gathered>
    requires { IsDrawn sample drawn }
{
    let Drawn {
        module: _,
        names,
        contributions,
        vectors: _,
    } = drawn;
    gather_up::<Sample>(
        alloc,
        &load::<Sample, Sample>(&Sample),
        &names,
        contributions,
    )
    .ok()
}

/// The netlist of equations: its nodes, its cells, a few pairs of columns, and the leaves of its signals with their names.
pub(crate) fn put_netlist(
    alloc: Global,
    names: &Found,
    text: &str,
    found: &mut Found,
) -> Option<()> {
    let module = row_module(alloc, names, "equations", text, "")?;
    let gathered = gathered_up(
        alloc,
        draw::<Sample>(alloc, &load::<Sample, Sample>(&Sample), module)?,
    )?;
    put_net(&gathered.net, found);
    for link in gathered.links.as_slice() {
        put_leaf(link, found);
    }
    found.text("; names");
    for name in gathered.signals.as_slice() {
        put_number(*name, found);
    }
    Some(())
}
