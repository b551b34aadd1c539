//! The sources of a command: the bytes of the files that it names.

ghost use Rattle.std.specs.Prelude.{◌≡◌, ◌≤◌, IfOk, IfErr, All, length};
ghost use Rattle.abel_commands.specs.Prelude.{SameFiles};
ghost use Rattle.abel_commands.specs.Limit.{limit};
ghost use Rattle.abel_commands.specs.Reading.{AreSources, IsWhyUnread};
ghost use Rattle.abel_commands.specs.Counts.{count};
ghost use Rattle.abel_commands.specs.Sources.{source_at, sources_seen, texts};

use outside::{Files, ReadFault};
use std::alloc::{AllocFailed, Global};
use std::fmt::{self, Debug, Formatter};
use thiserror::Error;

/// The most bytes that a source or a fuse file may have.
pub const LIMIT: usize = 1_048_576;

/// Why the sources of a command were not read.
#[derive(Clone, Copy, Error)]
pub enum SourceFault<'a> {
    /// The file of this name was not read.
    #[error("a file was not read")]
    Unread(&'a str),
    /// A file has more bytes than the limit.
    #[error("a file is too long")]
    TooLong,
    /// Memory ran out.
    #[error("out of memory")]
    OutOfMemory,
}

impl<'a> Debug for SourceFault<'a> {
    fn fmt<W: fmt::Write>(&self, f: &mut Formatter<W>) -> fmt::Result {
        write!(f, "{self}")
    }
}

impl<'a, T: Drop> From<AllocFailed<T>> for SourceFault<'a> {
    ghost use Rattle.std.specs.Prelude.{◌≡◌};
    ghost use Rattle.abel_commands.specs.declared.sources.SourceFault.TheVariants as fault;

    ghost from_gives = { λ _ e. e ≡ fault.OutOfMemory };

    fn from(_error: AllocFailed<T>) -> SourceFault<'a> {
        SourceFault::OutOfMemory
    }
}

/// The bytes of the files of these names, in order, or why the first one that has none was not read.
pub fn read_sources<'a, F: Files>(
    alloc: Global,
    names: &'a [String],
    files: &mut F,
) -> Result<Vec<Vec<u8>>, SourceFault<'a>>
    ensures sources { IfOk result (λ s. AreSources F.Tells (F.file files.old) (texts names.now)
        (count (F.faults files.old) (F.faults files.new)) (sources_seen s.items)) }
    ensures unread { IfErr result (IsWhyUnread F.Tells (F.file files.old) (texts names.now)
        (count (F.faults files.old) (F.faults files.new))) }
    ensures same { F.Tells → SameFiles (F.file files.old) (F.file files.new) }
    ensures later { F.faults files.old ≤ F.faults files.new }
    ensures no_write { F.write_faults files.new ≡ F.write_faults files.old }
{
    let mut sources = Vec::new(alloc);
    for name in names {
        match files.read(alloc, name.as_str(), LIMIT) {
            Ok(source) => sources.push(source)?,
            Err(ReadFault::Failed) => return Err(SourceFault::Unread(name.as_str())),
            Err(ReadFault::TooLong) => return Err(SourceFault::TooLong),
            Err(ReadFault::OutOfMemory) => return Err(SourceFault::OutOfMemory),
        }
    }
    Ok(sources)
}

/// The source at a place, from 0; no bytes past the last one. Takes no memory.
pub fn source_at(sources: &[Vec<u8>], place: usize) -> &[u8]
    requires { All (λ source. length source ≤ limit) (sources_seen sources.now) }
    ensures source { result.now ≡ source_at (sources_seen sources.now) place }
    ensures within { length result.now ≤ limit }
{
    match sources.get(place) {
        Some(source) => source.as_slice(),
        None => &[],
    }
}
