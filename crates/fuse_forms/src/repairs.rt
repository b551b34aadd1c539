//! Bytes that are a fuse file once they are repaired.

ghost use Rattle.std.specs.Prelude.{false, ◌≡◌, IfOk, IfSome, option_map};
ghost use Rattle.fuse_forms.specs.Repairs.{IsHarmless, IsRepaired, IsRepairedFile};

use crate::finding::Finding;
use crate::line_ends::with_line_ends;
use crate::places::{with_end, with_file_sum, with_fuse_sum, with_start};
use jedec_file::JedecFault;
use jedec_reader::{FuseFile, frame_of, read};
use pld_base::OutOfMemory;
use pld_device::{Device, Loaded};
use std::alloc::Global;

/// How many repairs are made in turn.
const REPAIRS: u32 = 6;

/// The most bytes that a repaired text may have.
const LONGEST: usize = 4_194_304;

/// A fuse file that bytes are once they are repaired, and what was found of them, in order.
#[derive(Drop)]
pub struct RepairedFile {
    pub file: FuseFile,
    pub findings: Vec<Finding>,
}

/// What was found of a text, and the text that follows from it.
#[derive(Drop)]
struct Repair {
    finding: Finding,
    text: Vec<u8>,
}

/// The repair by a finding, if there is a text.
fn by(finding: Finding, text: Option<Vec<u8>>) -> Option<Repair>
    ensures { result ≡ option_map (λ text. record { finding = finding; text = text }) text }
{
    match text {
        Some(text) => Some(Repair { finding, text }),
        None => None,
    }
}

/// The repair of a text whose transmission sum is not that of its bytes.
fn repair_of_sum(
    alloc: Global,
    text: &[u8],
    mends: bool,
    read: u16,
    found: u16,
) -> Result<Option<Repair>, OutOfMemory>
    ensures is { IfOk result (λ repair. IfSome repair
        (λ r. IsRepaired r.finding text.now r.text.items)) }
    ensures harmless { mends ≡ false
        → IfOk result (λ repair. IfSome repair (λ r. IsHarmless r.finding)) }
{
    let lines = with_line_ends(alloc, text)?;
    if frame_of(&lines).is_ok() {
        return Ok(Some(Repair {
            finding: Finding::LineEnds,
            text: lines,
        }));
    }
    if !mends {
        return Ok(None);
    }
    let text = with_file_sum(alloc, text, found)?;
    Ok(by(Finding::FileSum { read, found }, text))
}

/// The repair of a text that is not read for this reason, if there is one.
fn repair_for(
    alloc: Global,
    text: &[u8],
    mends: bool,
    fault: &JedecFault,
) -> Result<Option<Repair>, OutOfMemory>
    ensures is { IfOk result (λ repair. IfSome repair
        (λ r. IsRepaired r.finding text.now r.text.items)) }
    ensures harmless { mends ≡ false
        → IfOk result (λ repair. IfSome repair (λ r. IsHarmless r.finding)) }
{
    match fault {
        JedecFault::NoStart => Ok(Some(Repair {
            finding: Finding::NoStart,
            text: with_start(alloc, text)?,
        })),
        JedecFault::NoEnd => Ok(by(Finding::NoEnd, with_end(alloc, text)?)),
        JedecFault::FileSum { read, found } => repair_of_sum(alloc, text, mends, *read, *found),
        JedecFault::FuseSum { read, found } => {
            if !mends {
                return Ok(None);
            }
            let (read, found) = (*read, *found);
            let text = with_fuse_sum(alloc, text, read, found)?;
            Ok(by(Finding::FuseSum { read, found }, text))
        }
        JedecFault::OutOfMemory => Err(OutOfMemory),
        _ => Ok(None),
    }
}

/// The fuse file of a device that bytes are once they are repaired, if they are one. Sums are mended only if that is asked
/// for.
pub fn repaired<D: Device>(
    alloc: Global,
    device: &Loaded<D>,
    bytes: &[u8],
    mends: bool,
) -> Result<Option<RepairedFile>, OutOfMemory>
    ensures { IfOk result
        (λ repaired. IfSome repaired (IsRepairedFile D.table mends bytes.now)) }
{
    let mut text = Vec::from_slice(alloc, bytes)?;
    let mut findings = Vec::new(alloc);
    for _turn in 0..REPAIRS {
        if text.len() > LONGEST {
            return Ok(None);
        }
        let fault = match read::<D>(alloc, device, &text) {
            Ok(file) => return Ok(Some(RepairedFile { file, findings })),
            Err(fault) => fault,
        };
        let Some(next) = repair_for(alloc, &text, mends, &fault)? else {
            return Ok(None);
        };
        findings.push(next.finding)?;
        text = next.text;
    }
    Ok(None)
}
