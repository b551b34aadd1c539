//! Writes a page under its name, and reports files that are not read or written.

ghost use Rattle.outside.specs.Outside.{SameBut};

use crate::made::Made;
use outside::{Files, WriteFault};
use pld_base::OutOfMemory;
use shown_text::printable;
use std::alloc::Global;

/// The report on a file that is not read or written: a word, and its name as it is shown.
pub fn told_of(alloc: Global, word: &[u8], name: &str) -> Result<Made, OutOfMemory> {
    let shown = printable(alloc, name.as_bytes())?;
    Made::told(alloc, 6, &[word, shown.as_bytes(), b"\n"])
}

/// Writes the page that there may be.
pub fn write_page<F: Files>(
    alloc: Global,
    files: &mut F,
    output: &str,
    made: Made,
) -> Result<Made, OutOfMemory>
    ensures others { F.Tells → SameBut output.now (F.file files.old) (F.file files.new) }
{
    let Some(page) = &made.page else {
        return Ok(made);
    };
    match files.write(output, page) {
        Ok(()) => Ok(made),
        Err(WriteFault::Failed) => told_of(alloc, b"error file ", output),
        Err(WriteFault::OutOfMemory) => Err(OutOfMemory),
    }
}
