//! The top call of the program `abel-page`.

ghost use Rattle.std.specs.Prelude.{◌≤◌, length};
ghost use Rattle.abel_commands.specs.Limit.{limit};
ghost use Rattle.design_page.specs.Kept.{KeepsOthers};

use crate::frame::FRONT;
use crate::made::{Input, Made};
use crate::of_file::page_of_file;
use crate::of_source::page_of_source;
use crate::writing::{told_of, write_page};
use abel_commands::{SourceFault, read_sources, source_at};
use outside::{GuardedFiles, ReadFault, Sink, SinkFault};
use pld_base::{DeviceName, OutOfMemory};
use shown_text::printable;
use std::alloc::Global;

/// The words that the program takes.
const USAGE: &[u8] = b"usage: abel-page IN OUT.html
       abel-page DEVICE IN OUT.html
abel compiles and lists the same source; abel-fuses works on fuse files.
";

/// What the words ask for: the page of a source, or with a device that of a fuse file.
#[derive(Clone, Copy)]
struct Asked<'a> {
    device: Option<DeviceName>,
    inputs: &'a [String],
    output: &'a str,
}

/// What the words ask for, if anything.
fn asked_by(words: &[String]) -> Option<Asked<'_>> {
    match words {
        [_, output] => Some(Asked {
            device: None,
            inputs: &words[..1],
            output: output.as_str(),
        }),
        [device, _, output] => {
            let device = DeviceName::named(device.as_bytes())?;
            Some(Asked {
                device: Some(device),
                inputs: &words[1..2],
                output: output.as_str(),
            })
        }
        _ => None,
    }
}

/// The name of the file that is read.
fn input_of(asked: Asked) -> &str {
    match asked.inputs {
        [name, ..] => name.as_str(),
        [] => "",
    }
}

/// What results from the bytes of a file.
fn made_of(alloc: Global, asked: Asked, bytes: &[u8]) -> Result<Made, OutOfMemory>
    requires { length bytes.now ≤ limit }
{
    let shown = printable(alloc, input_of(asked).as_bytes())?;
    let input = Input {
        name: shown.as_bytes(),
        bytes,
    };
    match asked.device {
        None => page_of_source(alloc, input),
        Some(device) => page_of_file(alloc, device, input),
    }
}

/// Makes what the words ask for of the bytes of its file, and writes the page that there may be, unless another file would be
/// lost by it.
fn obey_over<F: GuardedFiles>(
    alloc: Global,
    asked: Asked,
    files: &mut F,
    bytes: &[u8],
) -> Result<Made, OutOfMemory>
    requires { length bytes.now ≤ limit }
    ensures kept { F.Tells → KeepsOthers FRONT.now (F.file files.old) (F.file files.new) }
{
    match files.may_replace(asked.output, input_of(asked), FRONT.as_bytes()) {
        Ok(true) => {
            let made = made_of(alloc, asked, bytes)?;
            write_page(alloc, files, asked.output, made)
        }
        Ok(false) => told_of(alloc, b"error NotAPage ", asked.output),
        Err(ReadFault::OutOfMemory) => Err(OutOfMemory),
        Err(_) => told_of(alloc, b"error file ", asked.output),
    }
}

/// Does what the words ask for.
fn obey<F: GuardedFiles>(alloc: Global, asked: Asked, files: &mut F) -> Result<Made, OutOfMemory>
    ensures kept { F.Tells → KeepsOthers FRONT.now (F.file files.old) (F.file files.new) }
{
    match read_sources(alloc, asked.inputs, files) {
        Ok(sources) => obey_over(alloc, asked, files, source_at(&sources, 0)),
        Err(SourceFault::Unread(name)) => told_of(alloc, b"error file ", name),
        Err(SourceFault::TooLong) => {
            let status = if asked.device.is_none() { 2 } else { 4 };
            Made::told(alloc, status, &[b"error TooLong\n"])
        }
        Err(SourceFault::OutOfMemory) => Err(OutOfMemory),
    }
}

/// Reports lack of memory, as far as the sink takes it.
fn report_memory<K: Sink>(report: &mut K) -> u8 {
    let _ = report.put(b"error memory\n");
    8
}

/// Does what the words of the command line ask for, and answers the status that the program ends with. A file that doesn't begin
/// as a page does stays as it is.
pub fn run<F: GuardedFiles, K: Sink>(
    alloc: Global,
    words: &[String],
    files: &mut F,
    report: &mut K,
) -> u8
    ensures kept { F.Tells → KeepsOthers FRONT.now (F.file files.old) (F.file files.new) }
{
    let made = match asked_by(words) {
        None => Made::told(alloc, 1, &[USAGE]),
        Some(asked) => obey(alloc, asked, files),
    };
    let Ok(made) = made else {
        return report_memory(report);
    };
    match report.put(&made.report) {
        Ok(()) => made.status,
        Err(SinkFault::Failed) => 7,
        Err(SinkFault::OutOfMemory) => report_memory(report),
    }
}
