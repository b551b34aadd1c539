//! The bytes of the files that a command reads.

ghost use Rattle.std.specs.Prelude.{◌≡◌, ◌≤◌, IfOk, IfErr};
ghost use Rattle.fuse_commands.specs.Prelude.{SameFiles, count};
ghost use Rattle.fuse_commands.specs.Sources.{AreSources, IsSource, IsWhyNoSource, IsWhyUnread};
ghost use Rattle.fuse_commands.specs.View.{command_seen};

use crate::command::Command;
use outside::{Files, ReadFault};
use std::alloc::Global;

/// The most bytes that a file may have.
const LIMIT: usize = 1_048_576;

/// Why the files of a command were not read.
#[derive(Clone, Copy, Drop)]
pub enum SourceFault<'a> {
    /// The file of this name was not read.
    Unread(&'a str),
    /// A file has more bytes than the limit.
    TooLong,
    /// Memory ran out.
    OutOfMemory,
}

/// The bytes of the file of a name, or why it was not read.
fn read_source<'a, F: Files>(
    alloc: Global,
    name: &'a str,
    files: &mut F,
) -> Result<Vec<u8>, SourceFault<'a>>
    ensures source { IfOk result (λ s. IsSource F.Tells (F.file files.old) name.now
        (count (F.faults files.old) (F.faults files.new)) s.items) }
    ensures unread { IfErr result (IsWhyNoSource F.Tells (F.file files.old) name.now
        (count (F.faults files.old) (F.faults files.new))) }
    ensures same { F.Tells → SameFiles (F.file files.old) (F.file files.new) }
    ensures later { F.faults files.old ≤ F.faults files.new }
    ensures no_write { F.write_faults files.new ≡ F.write_faults files.old }
{
    match files.read(alloc, name, LIMIT) {
        Ok(source) => Ok(source),
        Err(ReadFault::Failed) => Err(SourceFault::Unread(name)),
        Err(ReadFault::TooLong) => Err(SourceFault::TooLong),
        Err(ReadFault::OutOfMemory) => Err(SourceFault::OutOfMemory),
    }
}

/// The bytes of the files of a command, or why one of them was not read. The second are empty if it reads one.
pub fn read_files<'a, F: Files>(
    alloc: Global,
    command: Command<'a>,
    files: &mut F,
) -> Result<(Vec<u8>, Vec<u8>), SourceFault<'a>>
    ensures sources { IfOk result (λ s. AreSources F.Tells (F.file files.old)
        (command_seen command.entry) (count (F.faults files.old) (F.faults files.new))
        s.0.items s.1.items) }
    ensures unread { IfErr result (IsWhyUnread F.Tells (F.file files.old)
        (command_seen command.entry) (count (F.faults files.old) (F.faults files.new))) }
    ensures same { F.Tells → SameFiles (F.file files.old) (F.file files.new) }
    ensures later { F.faults files.old ≤ F.faults files.new }
    ensures no_write { F.write_faults files.new ≡ F.write_faults files.old }
{
    let first = match read_source(alloc, command.first, files) {
        Ok(first) => first,
        Err(fault) => return Err(fault),
    };
    let Some(name) = command.second else {
        return Ok((first, Vec::new(alloc)));
    };
    match read_source(alloc, name, files) {
        Ok(second) => Ok((first, second)),
        Err(fault) => Err(fault),
    }
}
