//! Sources that would take much stack or time if they were walked badly.

use crate::declared::names_of;
use crate::faults::put_refusal;
use crate::sources::place_behind;
use std::alloc::Global;
use test_rows::{Found, Report};

/// A constant with a row of 20,000 operators, the last of them before a name that isn't declared: no stack is needed.
fn run_long_row(alloc: Global, report: &mut Report) {
    let mut source = Found::new(alloc);
    source.text("module m u device 'P16R8'; a pin 2; k = ");
    for _ in 0..20_000 {
        source.text("a # ");
    }
    let mut expected = Found::new(alloc);
    put_refusal(&mut expected, "Undeclared b", place_behind(source.bytes()));
    source.text("b; end");
    report.row(1, expected.bytes(), &names_of(alloc, source.bytes()))
}

/// Puts the constant that is a set of the one before it, twice.
fn put_doubled(source: &mut Found, number: usize) {
    let before = number.saturating_sub(1);
    source.text("c");
    source.number(number);
    source.text(" = [c");
    source.number(before);
    source.text(",c");
    source.number(before);
    source.text("]; ")
}

/// Two pins, and constants that are each a set of the one before it, twice, the last of which is assigned: each is
/// followed once.
fn run_doubling(alloc: Global, report: &mut Report) {
    let mut source = Found::new(alloc);
    source.text("module m u device 'P16R8'; a pin 19; b pin 18; c0 = [a,a]; ");
    let mut expected = Found::new(alloc);
    expected.text("u device; a pin 19 reg invert assigned; b pin 18 com invert; c0 constant;");
    for number in 1..40usize {
        put_doubled(&mut source, number);
        expected.text(" c");
        expected.number(number);
        expected.text(" constant;");
    }
    source.text("equations c39 := 1; end");
    report.row(2, expected.bytes(), &names_of(alloc, source.bytes()))
}

/// The report on long sources.
pub fn report(alloc: Global) -> Found {
    let mut report = Report::new(alloc, "Long sources");
    run_long_row(alloc, &mut report);
    run_doubling(alloc, &mut report);
    report.end()
}
