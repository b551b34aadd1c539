//! What the words ask for, up to the report.

ghost use Rattle.std.specs.Prelude.{◌≡◌, ◌≤◌, ℕ, All, List, IfOk, OnErr, length};
ghost use Rattle.abel_cli.specs.Prelude.{SameFiles, limit, count, command_seen, ending_seen, task_seen, view, sources_seen, texts, command_of, source_count, IsNoCommand};
ghost use Rattle.abel_cli.specs.Call.{asked};
ghost use Rattle.abel_cli.specs.Found.{IsFound};
ghost use Rattle.abel_cli.specs.Run.{Comes, Ends};
ghost use Rattle.abel_cli.specs.Sources.{HasLongSource};

use abel_commands::ending::{Ending, Outcome, line};
use abel_commands::{
    Command, SourceFault, Task, check_ending, command_of, compare_ending, compile_ending,
    decompile_ending, demo_ending, list_ending, read_sources, simulate_ending, source_at,
};
use outside::{Files, WriteFault};
use pld_base::OutOfMemory;
use std::alloc::Global;

/// How a task ends with its sources.
fn ending<'a>(alloc: Global, task: Task<'a>, sources: &[Vec<u8>]) -> Result<Ending<'a>, OutOfMemory>
    requires { All (λ source. length source ≤ limit) (sources_seen sources.now) }
    ensures { IfOk result
        (λ e. Ends (task_seen task.entry) (sources_seen sources.now) (ending_seen e)) }
{
    let source = source_at(sources, 0);
    match task {
        Task::Compile { output } => compile_ending(alloc, output, source),
        Task::List => list_ending(alloc, source),
        Task::Simulate { device } => simulate_ending(alloc, device, source),
        Task::Check { device } => check_ending(alloc, device, source),
        Task::Demo { seed } => demo_ending(alloc, seed),
        Task::Decompile { device } => decompile_ending(alloc, device, source),
        Task::Compare { device } => compare_ending(alloc, device, source, source_at(sources, 1)),
    }
}

/// How a task ends if a source is over the limit.
fn long_ending<'a>(alloc: Global, task: Task<'a>) -> Result<Ending<'a>, OutOfMemory>
    ensures { (sources : List (List ℕ)) → HasLongSource (task_seen task.entry) sources
        → IfOk result (λ e. Ends (task_seen task.entry) sources (ending_seen e)) }
{
    let status = match task {
        Task::Compile { .. } | Task::List | Task::Demo { .. } => 2,
        Task::Simulate { .. }
        | Task::Check { .. }
        | Task::Decompile { .. }
        | Task::Compare { .. } => 4,
    };
    Ok(Ending::plain(status, line(alloc, b"error TooLong", b"")?))
}

/// What a command amounts to with its own sources, before anything is written.
fn found<'a, F: Files>(
    alloc: Global,
    command: Command<'a>,
    files: &mut F,
) -> Result<Outcome<'a>, OutOfMemory>
    requires { length command.inputs.now ≡ source_count (task_seen command.task) }
    ensures found { IfOk result (IsFound F.Tells (F.file files.old) (command_seen command.entry)
        (count (F.faults files.old) (F.faults files.new))) }
    ensures same { F.Tells → SameFiles (F.file files.old) (F.file files.new) }
    ensures later { F.faults files.old ≤ F.faults files.new }
    ensures no_write { F.write_faults files.new ≡ F.write_faults files.old }
{
    match read_sources(alloc, command.inputs, files) {
        Ok(sources) => Ok(Outcome::Ended(ending(alloc, command.task, &sources)?)),
        Err(SourceFault::Unread(name)) => Ok(Outcome::Unread(name)),
        Err(SourceFault::TooLong) => Ok(Outcome::Ended(long_ending(alloc, command.task)?)),
        Err(SourceFault::OutOfMemory) => Err(OutOfMemory),
    }
}

/// Does what a command asks for, up to the report.
fn obey<'a, F: Files>(
    alloc: Global,
    command: Command<'a>,
    files: &mut F,
) -> Result<Outcome<'a>, OutOfMemory>
    requires { length command.inputs.now ≡ source_count (task_seen command.task) }
    ensures comes { (words : List (List ℕ)) → command_of words ≡ Some (command_seen command.entry)
        → IfOk result (λ o. Comes (asked words F.Tells (F.file files.old) (F.file files.new)
        (F.faults files.old) (F.faults files.new)
        (F.write_faults files.old) (F.write_faults files.new)) (view o)) }
    ensures memory { F.Tells → OnErr result (SameFiles (F.file files.old) (F.file files.new)) }
{
    let ending = match found(alloc, command, files)? {
        Outcome::Ended(ending) => ending,
        other => return Ok(other),
    };
    let Some(output) = &ending.output else {
        return Ok(Outcome::Ended(ending));
    };
    match files.write(output.name, &output.bytes) {
        Ok(()) => Ok(Outcome::Ended(ending)),
        Err(WriteFault::Failed) => Ok(Outcome::Unwritten(output.name)),
        Err(WriteFault::OutOfMemory) => Err(OutOfMemory),
    }
}

/// Does what the words ask for, up to the report.
pub fn execute<'a, F: Files>(
    alloc: Global,
    words: &'a [String],
    files: &mut F,
) -> Result<Outcome<'a>, OutOfMemory>
    ensures comes { IfOk result (λ o. Comes (asked (texts words.now) F.Tells (F.file files.old)
        (F.file files.new) (F.faults files.old) (F.faults files.new)
        (F.write_faults files.old) (F.write_faults files.new)) (view o)) }
    ensures memory { F.Tells → OnErr result (SameFiles (F.file files.old) (F.file files.new)) }
    ensures memory_words { OnErr result (IsNoCommand (texts words.now) → ⊥) }
{
    match command_of(words) {
        None => Ok(Outcome::Usage),
        Some(command) => obey(alloc, command, files),
    }
}
