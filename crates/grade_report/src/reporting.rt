//! The report on a grade, and its status.

ghost use Rattle.std.specs.Prelude.{◌≡◌, ◌++◌, IfOk, OnOk};
ghost use Rattle.grade_report.specs.Report.{found_text, grade_line, others_text, report_of, status_of, verdict_lines};

use crate::counts;
use crate::head::put_head;
use crate::judged_lines::put_all_judged;
use crate::mismatch_lines::disagreement_lines;
use fuse_reports::put_numbered;
use pld_base::OutOfMemory;
use pld_device::{Device, Loaded};
use std::alloc::Global;
use wrong_fuses::{Grade, Judged};

/// Appends how many fuses there are, and how many the vectors find.
fn put_found(alloc: Global, text: &mut Vec<u8>, list: &[Judged]) -> Result<(), OutOfMemory>
    ensures { OnOk result (text.new.items ≡ text.old.items ++ found_text list.now) }
{
    put_numbered(alloc, text, b" faults ", list.len())?;
    put_numbered(alloc, text, b" found ", counts::found(list))?;
    Ok(())
}

/// Appends how many of each other verdict there are.
fn put_others(alloc: Global, text: &mut Vec<u8>, list: &[Judged]) -> Result<(), OutOfMemory>
    ensures { OnOk result (text.new.items ≡ text.old.items ++ others_text list.now) }
{
    put_numbered(alloc, text, b" same ", counts::same(list))?;
    put_numbered(alloc, text, b" missed ", counts::missed(list))?;
    put_numbered(alloc, text, b" refused ", counts::refused(list))?;
    Ok(())
}

/// Appends the line on the whole.
fn put_grade<D: Device>(
    alloc: Global,
    device: &Loaded<D>,
    text: &mut Vec<u8>,
    grade: &Grade,
) -> Result<(), OutOfMemory>
    ensures { OnOk result (text.new.items ≡ text.old.items ++ grade_line D.table grade.now) }
{
    let list = grade.judged.as_slice();
    put_head::<D>(alloc, device, text, b"graded ", grade.vectors as usize)?;
    put_found(alloc, text, list)?;
    put_others(alloc, text, list)?;
    text.push(b'\n')?;
    Ok(())
}

/// The lines on the wrong fuses.
fn verdict_lines<D: Device>(
    alloc: Global,
    device: &Loaded<D>,
    grade: &Grade,
) -> Result<Vec<u8>, OutOfMemory>
    ensures { IfOk result (λ text. text.items ≡ verdict_lines D.table grade.now) }
{
    let mut text = Vec::new(alloc);
    put_all_judged::<D>(alloc, device, &mut text, grade.judged.as_slice())?;
    put_grade::<D>(alloc, device, &mut text, grade)?;
    Ok(text)
}

/// The report on a grade: a line for each wrong fuse that is missed or refused, and one on the whole; or, if the right
/// device disagrees with the vectors, a line for each mismatch, and one on the whole run.
pub fn grade_report<D: Device>(
    alloc: Global,
    device: &Loaded<D>,
    grade: &Grade,
) -> Result<Vec<u8>, OutOfMemory>
    ensures { IfOk result (λ text. text.items ≡ report_of D.table grade.now) }
{
    let low = grade.low.as_slice();
    let high = grade.high.as_slice();
    if !low.is_empty() {
        disagreement_lines::<D>(alloc, device, grade.vectors, 0, low)
    } else if !high.is_empty() {
        disagreement_lines::<D>(alloc, device, grade.vectors, 1, high)
    } else {
        verdict_lines::<D>(alloc, device, grade)
    }
}

/// The status that it ends with: 4 if the right device disagrees, 5 if some wrong fuse is missed, else 0.
pub fn grade_status(grade: &Grade) -> u8
    ensures { result ≡ status_of grade.now }
{
    let agrees = grade.low.as_slice().is_empty() && grade.high.as_slice().is_empty();
    if !agrees {
        4
    } else if counts::missed(grade.judged.as_slice()) == 0 {
        0
    } else {
        5
    }
}
