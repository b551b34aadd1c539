//! `vectors DEVICE IN OUT`.

ghost use Rattle.std.specs.Prelude.{◌≡◌, ◌≤◌, ◌-◌, ◌++◌, ℕ, List, true, IfOk, length};
ghost use Rattle.devices.specs.Models.{table_at};
ghost use Rattle.file_models.specs.FileModels.{file_table};
ghost use Rattle.fuse_reports.specs.Ending.{limit};
ghost use Rattle.fuse_reports.specs.FuseFiles.{IsFileOf};
ghost use Rattle.fuse_reports.specs.View.{ending_seen};
ghost use Rattle.jedec_reader.specs.Contents.{contents};
ghost use Rattle.vector_report.specs.Vectoring.{IsWithMore, VectorsEnd, put_if_right};

use crate::saying::says_with;
use crate::splicing::spliced;
use devices::loaded_at;
use file_models::model_of;
use fuse_reports::{Ending, Output, Taken, take_file};
use grade_report::grade_ending;
use jedec_reader::FuseFile;
use pld_base::{DeviceName, Model, OutOfMemory, Vector};
use pld_device::{Device, Loaded};
use std::alloc::Global;
use std::marker::Brand;
use test_vectors::test_vectors;

/// The most bytes that a file may have.
const LIMIT: usize = 1_048_576;

/// The most vectors that are numbered.
const MOST: usize = 9_999;

/// The name of the file that is written.
#[derive(Clone, Copy)]
struct Target<'a> {
    name: &'a str,
}

/// The file's vectors, and others after them.
fn with_more(alloc: Global, file: &FuseFile, more: &[Vector]) -> Result<Vec<Vector>, OutOfMemory>
    ensures { IfOk result (λ all. all.items ≡ file.now.vectors ++ more.now) }
{
    let mut all = file.vectors.as_slice().to_vec(alloc)?;
    all.extend_from_slice(more)?;
    Ok(all)
}

/// How many vectors may follow the file's own, if there may be so many in all.
fn room_for(file: &FuseFile, most: u16) -> usize
    ensures { result ≤ most - length file.now.vectors }
{
    let most = usize::from(most).min(MOST);
    most.saturating_sub(file.vectors.as_slice().len())
}

/// Whether bytes are a fuse file that says what another one says, with these vectors after its own.
fn is_right<D: Device>(
    alloc: Global,
    device: &Loaded<D>,
    bytes: &[u8],
    file: &FuseFile,
    more: &[Vector],
) -> Result<bool, OutOfMemory>
    ensures { (most : ℕ) (input : List ℕ) → length more.now ≤ most - length file.now.vectors
        → IsFileOf D.table input (contents D.table file.now)
        → IfOk result (λ is. is ≡ true → IsWithMore D.table most input bytes.now) }
{
    if bytes.len() > LIMIT {
        return Ok(false);
    }
    let Taken::File(out) = take_file::<D>(alloc, device, bytes)? else {
        return Ok(false);
    };
    let all = with_more(alloc, file, more)?;
    Ok(says_with(&out, file, &all))
}

/// The file's bytes with more vectors: those that are found, unless the bytes with them aren't read as such.
fn vectored<D: Device>(
    alloc: Global,
    device: &Loaded<D>,
    bytes: &[u8],
    file: &FuseFile,
    most: u16,
) -> Result<Vec<u8>, OutOfMemory>
    requires file { IsFileOf D.table bytes.now (contents D.table file.now) }
    requires fuses { length file.now.fuses ≡ D.table.fuses }
    ensures { IfOk result (λ out. IsWithMore D.table most bytes.now out.items) }
{
    let more = test_vectors::<D>(alloc, device, file, room_for(file, most))?;
    let all = with_more(alloc, file, &more)?;
    if let Some(out) = spliced::<D>(alloc, device, bytes, &all)?
        && is_right::<D>(alloc, device, &out, file, &more)?
    {
        return Ok(out);
    }
    Ok(bytes.to_vec(alloc)?)
}

/// The ending of a grade, with the graded bytes under a name unless they are refused.
fn put_if_right<'a>(name: &'a str, bytes: Vec<u8>, graded: Ending<'a>) -> Ending<'a>
    ensures { ending_seen result ≡ put_if_right name.now bytes.items (ending_seen graded.entry) }
{
    if graded.status == 4 {
        return graded;
    }
    Ending {
        status: graded.status,
        text: graded.text,
        output: Some(Output { name, bytes }),
    }
}

/// How `vectors` ends with bytes as a fuse file of the device of this model.
fn ending_for<'a, D: Device>(
    alloc: Global,
    model: Model,
    bytes: &[u8],
    most: u16,
    output: Target<'a>,
) -> Result<Ending<'a>, OutOfMemory>
    requires table { table_at model ≡ D.table }
    requires within { length bytes.now ≤ limit }
    ensures { IfOk result
        (λ e. VectorsEnd D.table most bytes.now output.entry.name.now (ending_seen e)) }
{
    let device = loaded_at::<D>(model);
    let file = match take_file::<D>(alloc, &device, bytes)? {
        Taken::File(file) => file,
        Taken::Refused(line) => return Ok(Ending::plain(4, line)),
    };
    let out = vectored::<D>(alloc, &device, bytes, &file, most)?;
    let graded = grade_ending(alloc, model.name, &out)?;
    Ok(put_if_right(output.name, out, graded))
}

/// The same for each name, in the mode that the fuses say.
pub fn vectors_ending<'a>(
    alloc: Global,
    device: DeviceName,
    bytes: &[u8],
    most: u16,
    output: &'a str,
) -> Result<Ending<'a>, OutOfMemory>
    requires { length bytes.now ≤ limit }
    ensures { IfOk result
        (λ e. VectorsEnd (file_table device bytes.now) most bytes.now output.now (ending_seen e)) }
{
    let model = model_of(alloc, device, bytes)?;
    ending_for::<Brand>(alloc, model, bytes, most, Target { name: output })
}
