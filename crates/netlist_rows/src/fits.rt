//! Sources that fit a device, with their cells and their fuses.

ghost use Rattle.std.specs.Prelude.{◌≡◌, ◌≤◌, length};

use crate::alike::runs_alike;
use crate::drawing::{draw, gathered};
use crate::places::{put_number, put_word};
use crate::sources::module_of;
use device_sim::simulate;
use fitter::{FittedCell, fit};
use jedec_reader::FuseFile;
use pld_base::ListOf;
use pld_device::{Device, Loaded};
use std::alloc::Global;
use test_rows::{Found, Report, Row, Section};

/// The number of each cell, the form of its pin, and how many rows it has.
fn put_cells(cells: &[FittedCell], found: &mut Found) {
    for cell in cells {
        put_number(usize::from(cell.cell), found);
        put_word(if cell.inverted { "inverted" } else { "direct" }, found);
        put_number(cell.rows.as_slice().len(), found);
        found.text(";");
    }
}

/// Bit c says that cell c is inverted.
fn inverted_cells(cells: &[FittedCell]) -> u32 {
    let mut inverted = 0u32;
    for cell in cells {
        if cell.inverted && cell.cell < 32 {
            inverted |= 1 << cell.cell;
        }
    }
    inverted
}

fn put_fuses(levels: &[bool], found: &mut Found) {
    for level in levels {
        found.text(if *level { "1" } else { "0" });
    }
}

/// How often the device with its fuses disagrees with the vectors.
fn put_mismatches<D: Device>(
    alloc: Global,
    device: &Loaded<D>,
    file: &FuseFile,
    found: &mut Found,
) -> Option<()>
    requires size { length file.now.fuses ≡ D.table.fuses }
    requires few { length file.now.vectors ≤ 9999 }
{
    match simulate::<D>(alloc, device, file) {
        Ok(report) => {
            for _mismatch in report.list.as_slice() {
                found.text(", a mismatch");
            }
        }
        Err(_) => return None,
    }
    Some(())
}

/// The cells and the fuses of a source that fits; whether the device does as its module, if that is asked; and how
/// often it disagrees with the vectors.
fn put_fit<D: Device>(
    alloc: Global,
    device: &Loaded<D>,
    source: &Found,
    is_alike: bool,
    found: &mut Found,
) -> Option<()> {
    let module = module_of(alloc, source.bytes())?;
    let (made, vectors) = gathered::<D>(alloc, device, draw::<D>(alloc, device, module)?)?;
    let Ok(fitted) = fit::<D>(alloc, device, &made.net) else {
        return None;
    };
    put_cells(fitted.cells.as_slice(), found);
    put_fuses(fitted.fuses.levels(), found);
    let inverted = inverted_cells(fitted.cells.as_slice());
    if is_alike && !runs_alike::<D>(alloc, device, &made, &fitted.fuses, inverted)? {
        found.text(", not as its module");
    }
    let file = FuseFile {
        fuses: fitted.fuses,
        listed: device.fuses(),
        vectors: ListOf::from_vec(vectors),
        default_level: false,
    };
    put_mismatches::<D>(alloc, device, &file, found)
}

/// What a block says: lines of a source, and after `=> ` its cells, and its fuses, of which the blanks don't count.
#[derive(Drop)]
struct Block {
    source: Found,
    wanted: Found,
}

fn put_wanted(text: &str, wanted: &mut Found) {
    if text.ends_with(';') {
        wanted.text(text);
    } else {
        for word in text.split_whitespace() {
            wanted.text(word);
        }
    }
}

fn block_of(alloc: Global, rows: &[Row]) -> Block {
    let mut source = Found::new(alloc);
    let mut wanted = Found::new(alloc);
    for row in rows {
        match row.text.strip_prefix("=> ") {
            Some(text) => put_wanted(text, &mut wanted),
            None => {
                source.text(row.text);
                source.text("\n");
            }
        }
    }
    Block { source, wanted }
}

/// Reports a block at its first line.
fn report_block<D: Device>(
    alloc: Global,
    device: &Loaded<D>,
    rows: &[Row],
    is_alike: bool,
    report: &mut Report,
) {
    let [first, ..] = rows else {
        return;
    };
    let block = block_of(alloc, rows);
    let mut found = Found::new(alloc);
    if put_fit::<D>(alloc, device, &block.source, is_alike, &mut found).is_none() {
        found.text(" nothing");
    }
    report.row(first.number, block.wanted.bytes(), &found)
}

/// The report on a section of blocks.
pub(crate) fn report<D: Device>(
    alloc: Global,
    device: &Loaded<D>,
    section: &Section,
    is_alike: bool,
) -> Found {
    let mut report = Report::new(alloc, section.name);
    match section.blocks(alloc) {
        Ok(blocks) => {
            for block in blocks.as_slice() {
                report_block::<D>(alloc, device, block.as_slice(), is_alike, &mut report);
            }
        }
        Err(_) => report.unread(0),
    }
    report.end()
}
