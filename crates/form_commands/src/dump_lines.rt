//! The lines of the report on a dump.

ghost use Rattle.std.specs.Prelude.{◌≡◌, ◌++◌, IfOk, OnOk, codes};
ghost use Rattle.form_commands.specs.DumpLines.{dump_report, finding_line, finding_lines, finding_text, spare_fuse_line, warning_lines, way_lines, wrong_count_line, wrong_length_line};
ghost use Rattle.form_commands.specs.Prelude.{contents, four_hex, two_sums};

use crate::dump::Way;
use fuse_forms::{Finding, are_alike, array_of, is_row_in_use};
use fuse_reports::{checked_line, put_numbered};
use jedec_reader::FuseFile;
use pld_base::{OutOfMemory, put_hex};
use pld_device::{Device, Loaded};
use std::alloc::Global;

/// Appends a piece and a sum.
fn put_sum(text: &mut Vec<u8>, piece: &[u8], sum: u16) -> Result<(), OutOfMemory>
    ensures { OnOk result (text.new.items ≡ text.old.items ++ (piece.now ++ four_hex sum)) }
{
    text.extend_from_slice(piece)?;
    put_hex(text, sum)?;
    Ok(())
}

/// Appends a name and two sums that differ: the one that the file says, and the one that was found.
fn put_sums(text: &mut Vec<u8>, name: &[u8], read: u16, found: u16) -> Result<(), OutOfMemory>
    ensures { OnOk result (text.new.items ≡ text.old.items ++ (name.now ++ two_sums read found)) }
{
    text.extend_from_slice(name)?;
    put_sum(text, b" read ", read)?;
    put_sum(text, b" found ", found)?;
    Ok(())
}

/// Appends the name of a finding, and its sums.
fn put_name(text: &mut Vec<u8>, finding: &Finding) -> Result<(), OutOfMemory>
    ensures { OnOk result (text.new.items ≡ text.old.items ++ finding_text finding.now) }
{
    match finding {
        Finding::NoStart => text.extend_from_slice(b"NoStart")?,
        Finding::NoEnd => text.extend_from_slice(b"NoEnd")?,
        Finding::LineEnds => text.extend_from_slice(b"LineEnds")?,
        Finding::FileSum { read, found } => put_sums(text, b"FileSum", *read, *found)?,
        Finding::FuseSum { read, found } => put_sums(text, b"FuseSum", *read, *found)?,
    }
    Ok(())
}

/// Appends the line on a finding.
fn put_finding(text: &mut Vec<u8>, finding: &Finding) -> Result<(), OutOfMemory>
    ensures { OnOk result (text.new.items ≡ text.old.items ++ finding_line finding.now) }
{
    text.extend_from_slice(b"found ")?;
    put_name(text, finding)?;
    text.push(b'\n')?;
    Ok(())
}

/// Appends a line for each finding, in order.
fn put_findings(text: &mut Vec<u8>, findings: &[Finding]) -> Result<(), OutOfMemory>
    ensures { OnOk result (text.new.items ≡ text.old.items ++ finding_lines findings.now) }
{
    for finding in findings {
        put_finding(text, finding)?;
    }
    Ok(())
}

/// Appends the lines on the findings of a file with one fuse more, and the line on that fuse.
fn put_longer(text: &mut Vec<u8>, findings: &[Finding]) -> Result<(), OutOfMemory>
    ensures { OnOk result (text.new.items
        ≡ text.old.items ++ (finding_lines findings.now ++ codes "found SpareFuse\n")) }
{
    put_findings(text, findings)?;
    text.extend_from_slice(b"found SpareFuse\n")?;
    Ok(())
}

/// Appends the lines on how bytes say a file.
fn put_way(text: &mut Vec<u8>, how: &Way) -> Result<(), OutOfMemory>
    ensures { OnOk result (text.new.items ≡ text.old.items ++ way_lines how.now) }
{
    match how {
        Way::AsFile => Ok(()),
        Way::InBinary => Ok(text.extend_from_slice(b"found Binary\n")?),
        Way::Repaired(findings) => put_findings(text, findings),
        Way::Longer(findings) => put_longer(text, findings),
    }
}

/// Appends the warnings on fuses that are no dump of a design.
fn put_warnings<D: Device>(
    device: &Loaded<D>,
    text: &mut Vec<u8>,
    levels: &[bool],
) -> Result<(), OutOfMemory>
    ensures { OnOk result (text.new.items ≡ text.old.items ++ warning_lines D.table levels.now) }
{
    let array = array_of::<D>(device, levels);
    if are_alike(array, false) {
        text.extend_from_slice(b"warning AllAlike 0\n")?;
    } else if are_alike(array, true) {
        text.extend_from_slice(b"warning AllAlike 1\n")?;
    } else if !is_row_in_use::<D>(device, levels) {
        text.extend_from_slice(b"warning NoRowInUse\n")?;
    }
    Ok(())
}

/// The report on a dump.
pub fn dump_report<D: Device>(
    alloc: Global,
    device: &Loaded<D>,
    how: &Way,
    file: &FuseFile,
) -> Result<Vec<u8>, OutOfMemory>
    ensures { IfOk result
        (λ text. text.items ≡ dump_report D.table how.now (contents D.table file.now)) }
{
    let mut text = Vec::new(alloc);
    put_way(&mut text, how)?;
    put_warnings::<D>(device, &mut text, file.fuses.levels())?;
    text.extend_from_slice(&checked_line::<D>(alloc, device, file)?)?;
    Ok(text)
}

/// The line on a number of fuses that the device doesn't have.
pub fn wrong_count_line(alloc: Global, count: u16) -> Result<Vec<u8>, OutOfMemory>
    ensures { IfOk result (λ v. v.items ≡ wrong_count_line count) }
{
    let mut line = Vec::new(alloc);
    put_numbered(alloc, &mut line, b"error WrongCount ", usize::from(count))?;
    line.push(b'\n')?;
    Ok(line)
}

/// The line on a number of bytes that isn't that of the fuses.
pub fn wrong_length_line(alloc: Global, read: usize, wanted: usize) -> Result<Vec<u8>, OutOfMemory>
    ensures { IfOk result (λ v. v.items ≡ wrong_length_line read wanted) }
{
    let mut line = Vec::new(alloc);
    put_numbered(alloc, &mut line, b"error WrongLength read ", read)?;
    put_numbered(alloc, &mut line, b" wanted ", wanted)?;
    line.push(b'\n')?;
    Ok(line)
}

/// The line on a fuse more that is 1.
pub fn spare_fuse_line(alloc: Global) -> Result<Vec<u8>, OutOfMemory>
    ensures { IfOk result (λ v. v.items ≡ spare_fuse_line) }
{
    Ok(Vec::from_slice(alloc, b"error SpareFuse 5892\n")?)
}
