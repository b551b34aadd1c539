//! The top call.

ghost use Rattle.std.specs.Prelude.{◌≡◌};
ghost use Rattle.abel_cli.specs.Prelude.{Rose, memory_line, view, texts};
ghost use Rattle.abel_cli.specs.Call.{asked, heard};
ghost use Rattle.abel_cli.specs.Checked.{HasChecked};
ghost use Rattle.abel_cli.specs.Telling.{Tells, TakesFront};
ghost use Rattle.abel_cli.specs.Further.{HasCompiled, IsRightOrOld};
ghost use Rattle.abel_cli.specs.Promises.{Promises};
ghost use Rattle.abel_cli.specs.Right.{IsRight};
ghost use Rattle.abel_cli.specs.Run.{Runs};

use crate::execute::execute;
use abel_commands::ending::{Outcome, status, text};
use outside::{Files, Sink, SinkFault};
use std::alloc::Global;

/// Reports lack of memory, as far as the sink takes it.
fn report_memory<K: Sink>(report: &mut K) -> u8
    ensures status { result ≡ 8 }
    ensures taken { K.Tells → TakesFront memory_line (K.taken report.old) (K.taken report.new) }
{
    let _ = report.put(b"error memory\n");
    8
}

/// Reports an outcome, and answers the status.
fn tell<K: Sink>(alloc: Global, outcome: &Outcome, report: &mut K) -> u8
    ensures { Tells (view outcome.now) (heard K.Tells (K.taken report.old) (K.taken report.new)
        (K.faults report.old) (K.faults report.new) result) }
{
    let Ok(whole) = text(alloc, outcome) else {
        return report_memory(report);
    };
    match report.put(&whole) {
        Ok(()) => status(outcome),
        Err(SinkFault::Failed) => 7,
        Err(SinkFault::OutOfMemory) => report_memory(report),
    }
}

/// Does what the words ask for and reports it.
fn perform<F: Files, K: Sink>(alloc: Global, words: &[String], files: &mut F, report: &mut K) -> u8
    ensures { Runs (asked (texts words.now) F.Tells (F.file files.old) (F.file files.new)
        (F.faults files.old) (F.faults files.new) (F.write_faults files.old)
        (F.write_faults files.new)) (heard K.Tells (K.taken report.old) (K.taken report.new)
        (K.faults report.old) (K.faults report.new) result) }
{
    match execute(alloc, words, files) {
        Ok(outcome) => tell(alloc, &outcome, report),
        Err(_) => report_memory(report),
    }
}

/// Does what the words of the command line ask for, and answers the status that the program ends with.
///
/// The words are those after the program's name: `compile IN OUT`, `list IN`, `simulate DEVICE IN`,
/// `check DEVICE IN`, `demo N`, `decompile DEVICE IN` or `compare DEVICE A B`; every other list of words is answered with
/// the usage text. The order is: words, reading IN, or A and then B, what is done with them, writing OUT, the report.
pub fn run<F: Files, K: Sink>(alloc: Global, words: &[String], files: &mut F, report: &mut K) -> u8
    // The main theorem: with `compile` under 0 OUT holds a file whose fuses do what the source under
    // IN says.
    ensures right { F.Tells → result ≡ 0 → IsRight (texts words.now) (F.file files.old)
        (F.file files.new) }
    // What else holds of that source, and the summary in the report.
    ensures compiled { F.Tells → result ≡ 0 → HasCompiled (texts words.now) (F.file files.old)
        (F.file files.new) K.Tells (K.taken report.old) (K.taken report.new) }
    // What `check` then answers of OUT: status 0, and the figures of that summary.
    ensures checked { F.Tells → result ≡ 0 → HasChecked (texts words.now) (F.file files.new)
        K.Tells (K.taken report.old) (K.taken report.new) }
    // Under every status OUT is as it was, holds such a file, or a write failed.
    ensures right_or_old { F.Tells → IsRightOrOld (texts words.now) (F.file files.old)
        (F.file files.new) (Rose (F.write_faults files.old) (F.write_faults files.new)) }
    // What each status means, and what the files and the report are afterwards.
    ensures promises { Promises (asked (texts words.now) F.Tells (F.file files.old)
        (F.file files.new) (F.faults files.old) (F.faults files.new) (F.write_faults files.old)
        (F.write_faults files.new)) (heard K.Tells (K.taken report.old) (K.taken report.new)
        (K.faults report.old) (K.faults report.new) result) }
    // The whole of it: the ending, its cause, what it leaves and how it is reported.
    ensures run { Runs (asked (texts words.now) F.Tells (F.file files.old) (F.file files.new)
        (F.faults files.old) (F.faults files.new) (F.write_faults files.old)
        (F.write_faults files.new)) (heard K.Tells (K.taken report.old) (K.taken report.new)
        (K.faults report.old) (K.faults report.new) result) }
{
    perform(alloc, words, files, report)
}
