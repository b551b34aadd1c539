//! The lines of the report on a run of vectors.

ghost use Rattle.std.specs.Prelude.{◌≡◌, ◌++◌, IfOk, OnOk, flat_map};
ghost use Rattle.abel_commands.specs.Simulating.{mismatch_line, run_line, run_lines};

use crate::numbered::put_numbered;
use device_sim::{Mismatch, Report};
use pld_base::OutOfMemory;
use pld_device::{Device, Loaded};
use std::alloc::Global;

/// Appends the line on a mismatch.
fn put_mismatch(alloc: Global, text: &mut Vec<u8>, it: &Mismatch) -> Result<(), OutOfMemory>
    ensures { OnOk result (text.new.items ≡ text.old.items ++ mismatch_line it.now) }
{
    put_numbered(alloc, text, b"vector ", it.vector as usize)?;
    put_numbered(alloc, text, b" pin ", usize::from(it.pin))?;
    text.extend_from_slice(b" expects ")?;
    text.push(it.expects)?;
    text.extend_from_slice(b" finds ")?;
    text.push(it.finds)?;
    text.push(b'\n')?;
    Ok(())
}

/// Appends a line for each mismatch.
fn put_mismatches(alloc: Global, text: &mut Vec<u8>, list: &[Mismatch]) -> Result<(), OutOfMemory>
    ensures { OnOk result (text.new.items
        ≡ text.old.items ++ flat_map mismatch_line list.now) }
{
    for it in list {
        put_mismatch(alloc, text, it)?;
    }
    Ok(())
}

/// Appends the line on the whole run.
fn put_run<D: Device>(
    alloc: Global,
    device: &Loaded<D>,
    text: &mut Vec<u8>,
    vectors: usize,
    mismatches: usize,
) -> Result<(), OutOfMemory>
    ensures { OnOk result (text.new.items
        ≡ text.old.items ++ run_line D.table vectors mismatches) }
{
    text.extend_from_slice(b"simulated ")?;
    text.extend_from_slice(device.name().text().as_bytes())?;
    put_numbered(alloc, text, b" vectors ", vectors)?;
    put_numbered(alloc, text, b" mismatches ", mismatches)?;
    text.push(b'\n')?;
    Ok(())
}

/// The lines on a run: one for each mismatch, and the one on the whole.
pub fn run_lines<D: Device>(
    alloc: Global,
    device: &Loaded<D>,
    report: &Report,
) -> Result<Vec<u8>, OutOfMemory>
    ensures { IfOk result (λ text. text.items
        ≡ run_lines D.table report.now.vectors report.now.list) }
{
    let mut text = Vec::new(alloc);
    let list = report.list.as_slice();
    put_mismatches(alloc, &mut text, list)?;
    put_run::<D>(
        alloc,
        device,
        &mut text,
        report.vectors as usize,
        list.len(),
    )?;
    Ok(text)
}
