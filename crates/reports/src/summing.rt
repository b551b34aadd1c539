//! The summary of a fuse file, as a line.

ghost use Rattle.std.specs.Prelude.{◌≡◌, ◌++◌, length, IfOk, OnOk};
ghost use Rattle.reports.specs.Prelude.{decimal, plain_netlist};
ghost use Rattle.reports.specs.Summary.{assigned_cells, summary_of};

use crate::counting::{cells_used, products_used};
use bit_expr::Netlist;
use jedec_writer::fuse_sum;
use pld_base::{OutOfMemory, put_decimal, put_hex};
use pld_device::{Device, Fuses, Loaded};
use std::alloc::Global;

/// Appends a piece and a number after it.
fn put_number(
    alloc: Global,
    text: &mut Vec<u8>,
    piece: &[u8],
    number: usize,
) -> Result<(), OutOfMemory>
    ensures { OnOk result (text.new.items ≡ text.old.items ++ (piece.now ++ decimal number)) }
{
    text.extend_from_slice(piece)?;
    put_decimal(alloc, text, number)
}

/// `compiled DEVICE cells N products N opened N sum XXXX`: how many cells the netlist asks something of, how many data rows
/// are in use, how many fuses are opened, and the fuse sum.
pub fn summary<D: Device>(
    alloc: Global,
    device: &Loaded<D>,
    net: &Netlist,
    fuses: &Fuses,
) -> Result<Vec<u8>, OutOfMemory>
    requires { length fuses.now ≡ D.table.fuses }
    ensures { IfOk result (λ text. text.items
        ≡ summary_of D.table (assigned_cells D.table (plain_netlist net.now)) fuses.now) }
{
    let mut text = Vec::from_slice(alloc, b"compiled ")?;
    text.extend_from_slice(device.name().text().as_bytes())?;
    put_number(alloc, &mut text, b" cells ", cells_used::<D>(device, net))?;
    let products = products_used::<D>(device, fuses.levels());
    put_number(alloc, &mut text, b" products ", products)?;
    put_number(alloc, &mut text, b" opened ", fuses.opened())?;
    text.extend_from_slice(b" sum ")?;
    put_hex(&mut text, fuse_sum(fuses))?;
    text.push(b'\n')?;
    Ok(text)
}
