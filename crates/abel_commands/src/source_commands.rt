//! `compile IN OUT` and `list IN`.

ghost use Rattle.std.specs.Prelude.{◌≤◌, ℕ, Err, IfOk, List, length};
ghost use Rattle.abel_compile.specs.Answers.{CompileAnswers};
ghost use Rattle.abel_commands.specs.Limit.{limit};
ghost use Rattle.abel_commands.specs.SourceCommands.{EndsUncompiled, SourceEnds, listed, written};
ghost use Rattle.abel_commands.specs.View.{ending_seen};

use crate::ending::{Ending, Output};
use abel_compile::{CompileFault, compile};
use pld_base::OutOfMemory;
use std::alloc::Global;

/// How a command ends with a source that isn't compiled.
pub fn refused_ending<'a>(fault: CompileFault) -> Result<Ending<'a>, OutOfMemory>
    ensures { (text : List ℕ) → CompileAnswers text (Err fault)
        → IfOk result (λ e. EndsUncompiled text (ending_seen e)) }
{
    match fault {
        CompileFault::Source(_, line) => Ok(Ending::plain(2, line)),
        CompileFault::Place(_, line) => Ok(Ending::plain(3, line)),
        CompileFault::Fit(_, line) => Ok(Ending::plain(3, line)),
        CompileFault::OutOfMemory => Err(OutOfMemory),
    }
}

/// How `compile` ends with a source.
pub fn compile_ending<'a>(
    alloc: Global,
    output: &'a str,
    source: &[u8],
) -> Result<Ending<'a>, OutOfMemory>
    requires { length source.now ≤ limit }
    ensures { IfOk result (λ e. SourceEnds source.now (written output.now) (ending_seen e)) }
{
    match compile(alloc, source) {
        Ok(compiled) => Ok(Ending {
            status: 0,
            text: compiled.summary,
            output: Some(Output {
                name: output,
                bytes: compiled.file,
            }),
        }),
        Err(fault) => refused_ending(fault),
    }
}

/// How `list` ends with a source.
pub fn list_ending<'a>(alloc: Global, source: &[u8]) -> Result<Ending<'a>, OutOfMemory>
    requires { length source.now ≤ limit }
    ensures { IfOk result (λ e. SourceEnds source.now listed (ending_seen e)) }
{
    match compile(alloc, source) {
        Ok(compiled) => Ok(Ending::plain(0, compiled.listing)),
        Err(fault) => refused_ending(fault),
    }
}
