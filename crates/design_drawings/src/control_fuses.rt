//! The control fuses of a cell, beside its rows.

ghost use Rattle.std.specs.Prelude.{◌<◌, length};

use crate::drawn_design::Design;
use crate::page::{Page, Piece};
use pld_base::OutOfMemory;
use pld_device::{Device, Flip, FuseBit, Loaded};

/// Writes a control fuse that is there: its number, its level, and what this says.
fn put_fuse(
    page: &mut Page,
    design: Design,
    bit: Option<FuseBit>,
    yes: &'static str,
    no: &'static str,
) -> Result<(), OutOfMemory> {
    let Some(bit) = bit else {
        return Ok(());
    };
    let level = match design.levels().get(usize::from(bit.fuse)) {
        Some(level) => *level,
        None => false,
    };
    page.put(&[
        Piece::Markup(" · fuse "),
        Piece::Number(usize::from(bit.fuse)),
        Piece::Markup(if level { " is 1: " } else { " is 0: " }),
        Piece::Markup(if level == bit.level { yes } else { no }),
    ])
}

/// What the polarity fuse of a cell says. Before a register it says what the register takes: the pin has the complement of Q.
fn polarity_words<D: Device>(
    device: &Loaded<D>,
    design: Design,
    cell: u8,
) -> (&'static str, &'static str) {
    let is_register = match design.model.cell(cell) {
        Some(facts) => facts.is_register,
        None => false,
    };
    if is_register && device.flip() == Flip::BeforeRegister {
        (
            "D is the sum of its rows",
            "D is the complement of the sum of its rows",
        )
    } else {
        ("inverted", "direct")
    }
}

/// Writes the control fuses of a cell.
pub fn put_control_fuses<D: Device>(
    device: &Loaded<D>,
    page: &mut Page,
    design: Design,
    cell: u8,
) -> Result<(), OutOfMemory>
    requires { cell < length D.table.cells }
{
    let (yes, no) = polarity_words::<D>(device, design, cell);
    put_fuse(page, design, device.inverted_at(cell), yes, no)?;
    put_fuse(
        page,
        design,
        device.registered_at(cell),
        "registered",
        "combinational",
    )
}
