//! Sources that don't fit a device, with the reason.

use crate::drawing::{draw, gathered};
use crate::places::{put_number, put_word};
use crate::sources::module_of;
use covers::Cube;
use fit_plans::Tried;
use fitter::{FitFault, SharedControl, fit};
use pld_device::{Device, Loaded};
use std::alloc::Global;
use test_rows::Found;

/// How many rows a cover has, `-` if there isn't one.
fn put_count(cover: &Option<Vec<Cube>>, found: &mut Found) {
    match cover {
        Some(rows) => put_number(rows.len(), found),
        None => put_word("-", found),
    }
}

/// A kind of reason with the cells that it is about.
fn put_reason(kind: &str, cells: &[u8], found: &mut Found) {
    put_word(kind, found);
    for cell in cells {
        put_number(usize::from(*cell), found);
    }
}

/// Why a cell has too few rows.
fn put_tried(cell: u8, tried: &Tried, found: &mut Found) {
    put_reason("rows", &[cell], found);
    found.text(":");
    put_count(&tried.direct, found);
    put_count(&tried.inverted, found)
}

/// Why a netlist doesn't fit.
fn put_fit_fault(fault: FitFault, found: &mut Found) {
    match fault {
        FitFault::TooWide(cell) => put_reason("wide", &[cell], found),
        FitFault::NotShared(SharedControl::Reset, left, right, _) => {
            put_reason("resets", &[left, right], found)
        }
        FitFault::NotShared(SharedControl::Preset, left, right, _) => {
            put_reason("presets", &[left, right], found)
        }
        FitFault::ResetTooWide => put_word("reset", found),
        FitFault::PresetTooWide => put_word("preset", found),
        FitFault::EnableTooWide(cell) => put_reason("enable", &[cell], found),
        FitFault::TooManyProducts(cell, tried) => put_tried(cell, &tried, found),
        FitFault::OutOfMemory => put_word("no memory", found),
    }
}

/// Why a source doesn't fit.
pub(crate) fn put_fault<D: Device>(
    alloc: Global,
    device: &Loaded<D>,
    text: &str,
    found: &mut Found,
) -> Option<()> {
    let module = module_of(alloc, text.as_bytes())?;
    let (made, _vectors) = gathered::<D>(alloc, device, draw::<D>(alloc, device, module)?)?;
    match fit::<D>(alloc, device, &made.net) {
        Ok(_) => put_word("it fits", found),
        Err(fault) => put_fit_fault(fault, found),
    }
    Some(())
}
