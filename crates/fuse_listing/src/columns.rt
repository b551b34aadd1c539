//! What the columns of an array carry, by a device's fuses.

ghost use Rattle.std.specs.Prelude.{◌≡◌, ◌<◌, ◌≤◌, ◌++◌, OnOk, length};
ghost use Rattle.pld_base.specs.Bits.{is_on};
ghost use Rattle.pld_device.specs.Registers.{is_inverted, says, stores};
ghost use Rattle.pld_device.specs.Macrocells.{complement_if, pin_complements};
ghost use Rattle.abel_tree.specs.Entries.{entries_of};
ghost use Rattle.fuse_listing.specs.Listing.{carries_complement, column_literal, complements_output, literal_text};
ghost use Rattle.fuse_listing.specs.Listing.{CarryIsThere, pair_literal, pin_of};

use crate::burned::Burned;
use crate::lookups::{carry_at, cell_of};
use crate::pin_names::{name_on, names_complement, put_name};
use pld_base::OutOfMemory;
use pld_device::{Carry, Device, Flip, FuseBit, Kinds, Loaded};
use std::alloc::Global;

/// The level of a fuse, 0 past the last one. Takes no memory.
pub fn level_of(fuses: &[bool], fuse: usize) -> bool
    ensures { result ≡ is_on fuses.now fuse }
{
    match fuses.get(fuse) {
        Some(level) => *level,
        None => false,
    }
}

/// Whether a control fuse that is there has the level that it means. Takes no memory.
pub fn says(fuses: &[bool], bit: Option<FuseBit>) -> bool
    ensures { result ≡ says fuses.now bit }
{
    match bit {
        None => false,
        Some(bit) => level_of(fuses, usize::from(bit.fuse)) == bit.level,
    }
}

/// Whether a cell is a register. Takes no memory.
pub fn stores<D: Device>(device: &Loaded<D>, fuses: &[bool], cell: u8) -> bool
    requires { cell < length D.table.cells }
    ensures { result ≡ stores D.table fuses.now cell }
{
    match cell_of::<D>(device, cell).kinds {
        Kinds::Combinational => false,
        Kinds::Registered => true,
        Kinds::Either => says(fuses, device.registered_at(cell)),
    }
}

/// Whether the pin of a cell has the complement of its output. Takes no memory.
pub fn complements_output<D: Device>(device: &Loaded<D>, fuses: &[bool], cell: u8) -> bool
    requires { cell < length D.table.cells }
    ensures { result ≡ complements_output D.table fuses.now cell }
{
    match device.flip() {
        Flip::Always => true,
        Flip::AfterRegister => says(fuses, device.inverted_at(cell)),
        Flip::BeforeRegister => stores::<D>(device, fuses, cell)
            || says(fuses, device.inverted_at(cell)),
    }
}

/// The pin that a pair belongs to. Takes no memory.
pub fn pin_of<D: Device>(device: &Loaded<D>, pair: Carry) -> u8
    requires { CarryIsThere D.table pair }
    ensures { result ≡ pin_of D.table pair }
{
    match pair {
        Carry::Pin(pin) => pin,
        Carry::Cell(cell) => cell_of::<D>(device, cell).pin,
    }
}

/// Whether a pair carries the complement of its pin's polarity.
fn carries_complement<D: Device>(device: &Loaded<D>, fuses: &[bool], pair: Carry) -> bool
    requires { CarryIsThere D.table pair }
    ensures { result ≡ carries_complement D.table fuses.now pair }
{
    match pair {
        Carry::Pin(_) => false,
        Carry::Cell(cell) => stores::<D>(device, fuses, cell)
            && !complements_output::<D>(device, fuses, cell),
    }
}

/// Appends the literal of one of a pair's columns.
fn put_pair_literal<D: Device>(
    alloc: Global,
    out: &mut Vec<u8>,
    of: &Burned<D>,
    higher: bool,
    pair: Carry,
) -> Result<(), OutOfMemory>
    requires { CarryIsThere D.table pair }
    ensures { OnOk result (out.new.items
        ≡ out.old.items ++ pair_literal D.table of.now.fuses.now (entries_of of.now.names.now) higher pair) }
{
    let pin = pin_of::<D>(of.device, pair);
    let name = name_on(of.names, pin);
    if higher != (names_complement(name) != carries_complement::<D>(of.device, of.fuses, pair)) {
        out.push(b'!')?;
    }
    put_name(alloc, out, pin, name)
}

/// Appends the literal of a column.
pub fn put_column<D: Device>(
    alloc: Global,
    out: &mut Vec<u8>,
    of: &Burned<D>,
    column: u16,
) -> Result<(), OutOfMemory>
    requires { column < D.table.columns }
    ensures { OnOk result (out.new.items
        ≡ out.old.items ++ column_literal D.table of.now.fuses.now (entries_of of.now.names.now) column) }
{
    let pair = carry_at::<D>(of.device, column);
    put_pair_literal::<D>(alloc, out, of, column % 2 == 1, pair)
}
