//! The top call.

ghost use Rattle.fuse_commands.specs.Prelude.{asked, heard};
ghost use Rattle.fuse_commands.specs.Run.{Runs};
ghost use Rattle.fuse_commands.specs.View.{texts};

use crate::execute::execute;
use fuse_reports::{report_memory, tell};
use outside::{Files, Sink};
use std::alloc::Global;

/// Does what the words of the command line ask for, and answers the status that the program ends with.
///
/// The order is: words, reading the files, what is done with them, writing OUT, the report.
pub fn run<F: Files, K: Sink>(alloc: Global, words: &[String], files: &mut F, report: &mut K) -> u8
    // The whole of it: the ending, its cause, what it leaves and how it is reported.
    ensures run { Runs (asked (texts words.now) F.Tells (F.file files.old) (F.file files.new)
        (F.faults files.old) (F.faults files.new) (F.write_faults files.old)
        (F.write_faults files.new)) (heard K.Tells (K.taken report.old) (K.taken report.new)
        (K.faults report.old) (K.faults report.new) result) }
{
    match execute(alloc, words, files) {
        Ok(outcome) => tell(alloc, &outcome, report),
        Err(_) => report_memory(report),
    }
}
