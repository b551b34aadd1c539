//! The lines on wrong fuses that are missed or refused.

ghost use Rattle.std.specs.Prelude.{◌≡◌, ◌++◌, OnOk, codes, flat_map};
ghost use Rattle.grade_report.specs.Prelude.{decimal};
ghost use Rattle.wrong_fuses.specs.declared.verdict.Verdict.TheVariants.{Missed, OtherMode, Refused};
ghost use Rattle.grade_report.specs.Report.{judged_line, place_text, verdict_line};

use device_logic::SimFault;
use fuse_reports::{put_numbered, put_sim_fault};
use pld_base::OutOfMemory;
use pld_device::{Device, Loaded};
use std::alloc::Global;
use wrong_fuses::{Judged, Verdict};

/// Appends the row and the column of a fuse of the array.
fn put_place<D: Device>(
    alloc: Global,
    device: &Loaded<D>,
    text: &mut Vec<u8>,
    fuse: u16,
) -> Result<(), OutOfMemory>
    ensures { OnOk result (text.new.items ≡ text.old.items ++ place_text D.table fuse) }
{
    if fuse < device.columns() * device.rows() {
        put_numbered(alloc, text, b" row ", usize::from(fuse / device.columns()))?;
        put_numbered(
            alloc,
            text,
            b" column ",
            usize::from(fuse % device.columns()),
        )?;
    }
    Ok(())
}

/// Appends a line of a fuse between two pieces.
fn put_line(
    alloc: Global,
    text: &mut Vec<u8>,
    front: &[u8],
    fuse: u16,
    back: &[u8],
) -> Result<(), OutOfMemory>
    ensures { OnOk result (text.new.items
        ≡ text.old.items ++ (front.now ++ decimal fuse ++ back.now ++ codes "\n")) }
{
    put_numbered(alloc, text, front, usize::from(fuse))?;
    text.extend_from_slice(back)?;
    text.push(b'\n')?;
    Ok(())
}

/// Appends the line on a fuse that is missed.
fn put_missed<D: Device>(
    alloc: Global,
    device: &Loaded<D>,
    text: &mut Vec<u8>,
    fuse: u16,
) -> Result<(), OutOfMemory>
    ensures { OnOk result (text.new.items ≡ text.old.items ++ verdict_line D.table fuse Missed) }
{
    put_numbered(alloc, text, b"missed ", usize::from(fuse))?;
    put_place::<D>(alloc, device, text, fuse)?;
    text.push(b'\n')?;
    Ok(())
}

/// Appends the line on a fuse with which the chip isn't simulated.
fn put_refused<D: Device>(
    alloc: Global,
    text: &mut Vec<u8>,
    fuse: u16,
    fault: &SimFault,
) -> Result<(), OutOfMemory>
    ensures { OnOk result (text.new.items
        ≡ text.old.items ++ verdict_line D.table fuse (Refused fault.now)) }
{
    put_numbered(alloc, text, b"refused ", usize::from(fuse))?;
    text.push(b' ')?;
    put_sim_fault(alloc, text, fault)?;
    text.push(b'\n')?;
    Ok(())
}

/// Appends the line on a fuse with which the chip is in another mode.
fn put_other_mode<D: Device>(
    alloc: Global,
    text: &mut Vec<u8>,
    fuse: u16,
) -> Result<(), OutOfMemory>
    ensures { OnOk result (text.new.items
        ≡ text.old.items ++ verdict_line D.table fuse OtherMode) }
{
    put_line(alloc, text, b"refused ", fuse, b" WrongMode")
}

/// Appends the line on a fuse, if it is missed or refused.
fn put_judged<D: Device>(
    alloc: Global,
    device: &Loaded<D>,
    text: &mut Vec<u8>,
    it: &Judged,
) -> Result<(), OutOfMemory>
    ensures { OnOk result (text.new.items ≡ text.old.items ++ judged_line D.table it.now) }
{
    match &it.verdict {
        Verdict::Found(_) | Verdict::Same => Ok(()),
        Verdict::Missed => put_missed::<D>(alloc, device, text, it.fuse),
        Verdict::Refused(fault) => put_refused::<D>(alloc, text, it.fuse, fault),
        Verdict::OtherMode => put_other_mode::<D>(alloc, text, it.fuse),
    }
}

/// Appends the lines on the fuses that are missed or refused.
pub fn put_all_judged<D: Device>(
    alloc: Global,
    device: &Loaded<D>,
    text: &mut Vec<u8>,
    list: &[Judged],
) -> Result<(), OutOfMemory>
    ensures { OnOk result (text.new.items
        ≡ text.old.items ++ flat_map (judged_line D.table) list.now) }
{
    for it in list {
        put_judged::<D>(alloc, device, text, it)?;
    }
    Ok(())
}
