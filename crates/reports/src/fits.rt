//! The line on a netlist that does not fit.

ghost use Rattle.std.specs.Prelude.{◌≡◌, ◌<◌, ◌++◌, [], Some, Err, IsSome, IfOk, OnOk, length};
ghost use Rattle.reports.specs.Prelude.{cell_at, entries_of, cell_wanted, own_control};
ghost use Rattle.abel_meaning.specs.SoundIds.{IsSoundNetlist};
ghost use Rattle.fitter.specs.Answers.{FitAnswers};
ghost use Rattle.reports.specs.Fits.{control_text, count_text, enable_text, first_own, fit_text, room_text, tried_text, unshared_text};

use crate::firsts::first_own;
use crate::telling::begin_line;
use crate::told::{put_names, told};
use abel_tree::Names;
use bit_expr::{CellWanted, Netlist};
use covers::Cube;
use fit_plans::Tried;
use fitter::{FitFault, SharedControl, cell_wanted, own_control};
use pld_base::{OutOfMemory, put_decimal};
use pld_device::{Device, Loaded};
use std::alloc::Global;

/// What is asked of a cell that is assigned.
fn named_cell(net: &Netlist, cell: u8) -> CellWanted
    requires { IsSome (cell_wanted net.now cell) }
    ensures { cell_wanted net.now cell ≡ Some result }
{
    cell_wanted(net, cell).unwrap()
}

/// The line on two cells whose resets, or presets, differ: at the second's own.
fn unshared_line(
    alloc: Global,
    names: &Names,
    which: SharedControl,
    first: &CellWanted,
    second: &CellWanted,
) -> Result<Vec<u8>, OutOfMemory>
    requires { IsSome (own_control which second.now) }
    ensures { IfOk result (λ line.
        unshared_text (entries_of names.now) which (Some first.now) (Some second.now) ≡ Some line.items) }
{
    let control = own_control(which, second).unwrap();
    told(
        alloc,
        names,
        b"NotShared",
        control.place,
        &[first.name, second.name],
    )
}

/// The line on a reset, or preset, that is no product: at the first of a source.
fn shared_line(
    alloc: Global,
    names: &Names,
    word: &[u8],
    which: SharedControl,
    net: &Netlist,
) -> Result<Vec<u8>, OutOfMemory>
    requires { IsSome (first_own which net.now) }
    ensures { IfOk result (λ line.
        control_text (entries_of names.now) word.now (first_own which net.now) [] ≡ Some line.items) }
{
    let control = first_own(net, which).unwrap();
    told(alloc, names, word, control.place, &[])
}

/// The line on a cell whose enable is no product.
fn enable_line(alloc: Global, names: &Names, wanted: &CellWanted) -> Result<Vec<u8>, OutOfMemory>
    requires { IsSome wanted.now.enable }
    ensures { IfOk result (λ line. enable_text (entries_of names.now) (Some wanted.now) ≡ Some line.items) }
{
    let enable = wanted.enable.unwrap();
    told(alloc, names, b"EnableTooWide", enable.place, &[wanted.name])
}

/// Appends how many rows a cover has, `-` if there isn't one, and a piece after it.
fn put_count(
    alloc: Global,
    text: &mut Vec<u8>,
    cover: &Option<Vec<Cube>>,
    piece: &[u8],
) -> Result<(), OutOfMemory>
    ensures { OnOk result (text.new.items ≡ text.old.items ++ (count_text cover.now ++ piece.now)) }
{
    match cover {
        Some(rows) => put_decimal(alloc, text, rows.len())?,
        None => text.push(b'-')?,
    }
    text.extend_from_slice(piece)?;
    Ok(())
}

/// Appends how many rows a cell has, and how many its covers have.
fn put_room(
    alloc: Global,
    text: &mut Vec<u8>,
    room: usize,
    tried: &Tried,
) -> Result<(), OutOfMemory>
    ensures { OnOk result (text.new.items ≡ text.old.items ++ tried_text room tried.now) }
{
    text.extend_from_slice(b" room ")?;
    put_decimal(alloc, text, room)?;
    text.extend_from_slice(b" covers ")?;
    put_count(alloc, text, &tried.direct, b" ")?;
    put_count(alloc, text, &tried.inverted, b"\n")
}

/// How many data rows a cell has.
fn room_of<D: Device>(device: &Loaded<D>, cell: u8) -> usize
    requires { cell < length D.table.cells }
    ensures { result ≡ (cell_at D.table cell).room }
{
    usize::from(device.cell(cell).room)
}

/// The line on a cell with too few rows.
fn room_line<D: Device>(
    alloc: Global,
    device: &Loaded<D>,
    names: &Names,
    wanted: &CellWanted,
    tried: &Tried,
) -> Result<Vec<u8>, OutOfMemory>
    requires { wanted.now.cell < length D.table.cells }
    ensures { IfOk result (λ line.
        room_text D.table (entries_of names.now) tried.now (Some wanted.now) ≡ Some line.items) }
{
    let mut line = begin_line(alloc, b"TooManyProducts", wanted.place)?;
    put_names(&mut line, names, &[wanted.name])?;
    put_room(alloc, &mut line, room_of::<D>(device, wanted.cell), tried)?;
    Ok(line)
}

/// `error NAME at LINE:COLUMN` and what is reported with it, over the names of the source and the netlist that does not
/// fit, of which the refusal is. Lack of memory has no line.
pub fn fit_line<D: Device>(
    alloc: Global,
    device: &Loaded<D>,
    names: &Names,
    net: &Netlist,
    fault: &FitFault,
) -> Result<Vec<u8>, OutOfMemory>
    requires sound { IsSoundNetlist D.table net.now }
    requires unfit { FitAnswers D.table net.now (Err fault.now) }
    ensures line { IfOk result (λ line.
        fit_text D.table (entries_of names.now) net.now fault.now ≡ Some line.items) }
{
    match fault {
        FitFault::TooWide(cell) => {
            let wanted = named_cell(net, *cell);
            told(alloc, names, b"TooWide", wanted.place, &[wanted.name])
        }
        FitFault::NotShared(which, first, second, _) => {
            let one = named_cell(net, *first);
            let other = named_cell(net, *second);
            unshared_line(alloc, names, *which, &one, &other)
        }
        FitFault::ResetTooWide => {
            shared_line(alloc, names, b"ResetTooWide", SharedControl::Reset, net)
        }
        FitFault::PresetTooWide => {
            shared_line(alloc, names, b"PresetTooWide", SharedControl::Preset, net)
        }
        FitFault::EnableTooWide(cell) => {
            let enabled = named_cell(net, *cell);
            enable_line(alloc, names, &enabled)
        }
        FitFault::TooManyProducts(cell, tried) => {
            let full = named_cell(net, *cell);
            room_line::<D>(alloc, device, names, &full, tried)
        }
        FitFault::OutOfMemory => Err(OutOfMemory),
    }
}
