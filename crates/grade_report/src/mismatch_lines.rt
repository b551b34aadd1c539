//! The lines on vectors with which the right device disagrees.

ghost use Rattle.std.specs.Prelude.{◌≡◌, ◌++◌, IfOk, OnOk, codes, flat_map};
ghost use Rattle.grade_report.specs.Report.{disagreement_lines, level_text, mismatch_line};

use crate::head::put_head;
use device_sim::Mismatch;
use fuse_reports::put_numbered;
use pld_base::OutOfMemory;
use pld_device::{Device, Loaded};
use std::alloc::Global;

/// Appends the line on a mismatch.
fn put_mismatch(alloc: Global, text: &mut Vec<u8>, it: &Mismatch) -> Result<(), OutOfMemory>
    ensures { OnOk result (text.new.items ≡ text.old.items ++ mismatch_line it.now) }
{
    put_numbered(alloc, text, b"vector ", it.vector as usize)?;
    put_numbered(alloc, text, b" pin ", usize::from(it.pin))?;
    text.extend_from_slice(b" expects ")?;
    text.push(it.expects)?;
    text.extend_from_slice(b" finds ")?;
    text.push(it.finds)?;
    text.push(b'\n')?;
    Ok(())
}

/// Appends a line for each mismatch.
fn put_mismatches(alloc: Global, text: &mut Vec<u8>, list: &[Mismatch]) -> Result<(), OutOfMemory>
    ensures { OnOk result (text.new.items
        ≡ text.old.items ++ flat_map mismatch_line list.now) }
{
    for it in list {
        put_mismatch(alloc, text, it)?;
    }
    Ok(())
}

/// Appends the level of the pins that no vector drives, and how many mismatches there are with it, and ends the line.
fn put_level(
    alloc: Global,
    text: &mut Vec<u8>,
    level: u8,
    mismatches: usize,
) -> Result<(), OutOfMemory>
    ensures { OnOk result (text.new.items
        ≡ text.old.items ++ (level_text level mismatches ++ codes "\n")) }
{
    put_numbered(alloc, text, b" default ", usize::from(level))?;
    put_numbered(alloc, text, b" mismatches ", mismatches)?;
    text.push(b'\n')?;
    Ok(())
}

/// The lines on vectors with which the right device disagrees, with this level of the pins that no vector drives.
pub fn disagreement_lines<D: Device>(
    alloc: Global,
    device: &Loaded<D>,
    vectors: u32,
    level: u8,
    list: &[Mismatch],
) -> Result<Vec<u8>, OutOfMemory>
    ensures { IfOk result (λ text. text.items
        ≡ disagreement_lines D.table vectors level list.now) }
{
    let mut text = Vec::new(alloc);
    put_mismatches(alloc, &mut text, list)?;
    put_head::<D>(alloc, device, &mut text, b"disagrees ", vectors as usize)?;
    put_level(alloc, &mut text, level, list.len())?;
    Ok(text)
}
