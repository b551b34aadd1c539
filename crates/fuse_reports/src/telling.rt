//! The report of an outcome.

ghost use Rattle.std.specs.Prelude.{◌≡◌};
ghost use Rattle.fuse_reports.specs.Call.{heard};
ghost use Rattle.fuse_reports.specs.Ending.{memory_line};
ghost use Rattle.fuse_reports.specs.Telling.{TakesFront, Tells};
ghost use Rattle.fuse_reports.specs.View.{view};

use crate::ending::{Outcome, status, text};
use outside::{Sink, SinkFault};
use std::alloc::Global;

/// Reports lack of memory, as far as the sink takes it.
pub fn report_memory<K: Sink>(report: &mut K) -> u8
    ensures status { result ≡ 8 }
    ensures taken { K.Tells → TakesFront memory_line (K.taken report.old) (K.taken report.new) }
{
    let _ = report.put(b"error memory\n");
    8
}

/// Reports an outcome, and answers the status.
pub fn tell<K: Sink>(alloc: Global, outcome: &Outcome, report: &mut K) -> u8
    ensures { Tells (view outcome.now) (heard K.Tells (K.taken report.old) (K.taken report.new)
        (K.faults report.old) (K.faults report.new) result) }
{
    let Ok(whole) = text(alloc, outcome) else {
        return report_memory(report);
    };
    match report.put(&whole) {
        Ok(()) => status(outcome),
        Err(SinkFault::Failed) => 7,
        Err(SinkFault::OutOfMemory) => report_memory(report),
    }
}
