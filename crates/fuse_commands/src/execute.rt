//! What the words ask for, up to the report.

ghost use Rattle.std.specs.Prelude.{◌≡◌, ◌≤◌, ℕ, IfOk, List, OnErr, Some, length};
ghost use Rattle.fuse_commands.specs.Prelude.{SameFiles, asked, count, ending_seen, ends, limit, too_long_line, view};
ghost use Rattle.fuse_commands.specs.Found.{IsFound};
ghost use Rattle.fuse_commands.specs.Run.{Comes, Ends};
ghost use Rattle.fuse_commands.specs.View.{command_seen, task_seen, texts};
ghost use Rattle.fuse_commands.specs.Words.{command_of};

use crate::command::{Command, Task, command_of};
use crate::sources::{SourceFault, read_files};
use crate::usage::other_ending;
use form_commands::{read_ending, write_ending};
use fuse_reports::{Ending, Outcome};
use grade_report::grade_ending;
use outside::{Files, WriteFault};
use pair_commands::{compare_ending, port_ending};
use pld_base::OutOfMemory;
use std::alloc::Global;
use vector_report::vectors_ending;

/// How a task ends with the bytes of its files, of which the second are empty if it reads one.
fn ending<'a>(
    alloc: Global,
    task: Task<'a>,
    first: &[u8],
    second: &[u8],
) -> Result<Ending<'a>, OutOfMemory>
    requires first { length first.now ≤ limit }
    requires second { length second.now ≤ limit }
    ensures { IfOk result
        (λ e. Ends (task_seen task.entry) first.now second.now (ending_seen e)) }
{
    match task {
        Task::Grade(device) => grade_ending(alloc, device, first),
        Task::Vectors {
            device,
            most,
            output,
        } => vectors_ending(alloc, device, first, most, output),
        Task::Port { from, to, output } => port_ending(alloc, from, to, output, first),
        Task::Compare { from, to } => compare_ending(alloc, from, to, first, second),
        Task::Read {
            device,
            mends,
            output,
        } => read_ending(alloc, device, mends, output, first),
        Task::Write {
            device,
            wanted,
            output,
        } => write_ending(alloc, device, wanted, output, first),
    }
}

/// How a command ends if one of its files has too many bytes.
fn long_ending<'a>(alloc: Global) -> Result<Ending<'a>, OutOfMemory>
    ensures { IfOk result (λ e. ending_seen e ≡ ends 4 too_long_line) }
{
    Ok(Ending::plain(4, Vec::from_slice(alloc, b"error TooLong\n")?))
}

/// What a command amounts to with the bytes of its files, before anything is written.
fn found<'a, F: Files>(
    alloc: Global,
    command: Command<'a>,
    files: &mut F,
) -> Result<Outcome<'a>, OutOfMemory>
    ensures found { IfOk result (IsFound F.Tells (F.file files.old) (command_seen command.entry)
        (count (F.faults files.old) (F.faults files.new))) }
    ensures same { F.Tells → SameFiles (F.file files.old) (F.file files.new) }
    ensures later { F.faults files.old ≤ F.faults files.new }
    ensures no_write { F.write_faults files.new ≡ F.write_faults files.old }
{
    match read_files(alloc, command, files) {
        Ok((first, second)) => Ok(Outcome::Ended(ending(alloc, command.task, &first, &second)?)),
        Err(SourceFault::Unread(name)) => Ok(Outcome::Unread(name)),
        Err(SourceFault::TooLong) => Ok(Outcome::Ended(long_ending(alloc)?)),
        Err(SourceFault::OutOfMemory) => Err(OutOfMemory),
    }
}

/// Does what a command asks for, up to the report.
fn obey<'a, F: Files>(
    alloc: Global,
    command: Command<'a>,
    files: &mut F,
) -> Result<Outcome<'a>, OutOfMemory>
    ensures comes { (words : List (List ℕ)) → command_of words ≡ Some (command_seen command.entry)
        → IfOk result (λ o. Comes (asked words F.Tells (F.file files.old) (F.file files.new)
        (F.faults files.old) (F.faults files.new)
        (F.write_faults files.old) (F.write_faults files.new)) (view o)) }
    ensures memory { F.Tells → OnErr result (SameFiles (F.file files.old) (F.file files.new)) }
{
    let ending = match found(alloc, command, files)? {
        Outcome::Ended(ending) => ending,
        other => return Ok(other),
    };
    let Some(output) = &ending.output else {
        return Ok(Outcome::Ended(ending));
    };
    match files.write(output.name, &output.bytes) {
        Ok(()) => Ok(Outcome::Ended(ending)),
        Err(WriteFault::Failed) => Ok(Outcome::Unwritten(output.name)),
        Err(WriteFault::OutOfMemory) => Err(OutOfMemory),
    }
}

/// Does what the words ask for, up to the report.
pub fn execute<'a, F: Files>(
    alloc: Global,
    words: &'a [String],
    files: &mut F,
) -> Result<Outcome<'a>, OutOfMemory>
    ensures comes { IfOk result (λ o. Comes (asked (texts words.now) F.Tells (F.file files.old)
        (F.file files.new) (F.faults files.old) (F.faults files.new)
        (F.write_faults files.old) (F.write_faults files.new)) (view o)) }
    ensures memory { F.Tells → OnErr result (SameFiles (F.file files.old) (F.file files.new)) }
{
    match command_of(words) {
        None => Ok(Outcome::Ended(other_ending(alloc, words)?)),
        Some(command) => obey(alloc, command, files),
    }
}
