//! The line of the report on a demo.

ghost use Rattle.std.specs.Prelude.{◌≡◌, ◌<◌, ◌^◌, ℕ, Bool, List, IfOk, drop, length};
ghost use Rattle.abel_commands.specs.Prelude.{decimal, summary_of};
ghost use Rattle.abel_commands.specs.DemoCommand.{demo_told};

use crate::leading_digits::first_digits;
use crate::numbered::put_numbered;
use device_sim::Report;
use pld_base::{OutOfMemory, put_hex};
use pld_device::{Device, Loaded};
use std::alloc::Global;

/// What follows so many bytes, nothing if there are fewer.
fn behind(text: &[u8], count: usize) -> &[u8]
    ensures { result.now ≡ drop count text.now }
{
    if count > text.len() {
        return &[];
    }
    text.split_at(count).1
}

/// The digits of the number of cells in the summary of a source. Takes no memory.
pub fn cells_told<'a, D: Device>(device: &Loaded<D>, summary: &'a [u8]) -> &'a [u8]
    ensures { (cells : ℕ) (fuses : List Bool) → cells < 2 ^ 64 → summary.now ≡ summary_of D.table cells fuses
        → result.now ≡ decimal cells }
{
    let front = "compiled ".len() + device.name().text().len() + " cells ".len();
    first_digits(behind(summary, front))
}

/// The line on a run, with the digits of the number of cells.
pub fn demo_line(
    alloc: Global,
    seed: u16,
    cells: &[u8],
    report: &Report,
    sum: u16,
) -> Result<Vec<u8>, OutOfMemory>
    ensures { IfOk result (λ line. line.items
        ≡ demo_told seed cells.now report.now.vectors (length report.now.list) sum) }
{
    let mut line = Vec::new(alloc);
    put_numbered(alloc, &mut line, b"demo ", usize::from(seed))?;
    line.extend_from_slice(b" cells ")?;
    line.extend_from_slice(cells)?;
    put_numbered(alloc, &mut line, b" vectors ", report.vectors as usize)?;
    put_numbered(
        alloc,
        &mut line,
        b" mismatches ",
        report.list.as_slice().len(),
    )?;
    line.extend_from_slice(b" sum ")?;
    put_hex(&mut line, sum)?;
    line.push(b'\n')?;
    Ok(line)
}
