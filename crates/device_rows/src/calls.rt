//! The tests that are no rows.

use crate::asked::count_tests;
use crate::bits::{few_bits, limit, shared};
use crate::memory_files::{memory_files, memory_sink, sure_files};
use crate::real_files::{guarded_files, real_files, replaced_files};
use device_logic::{no_loop, one_layer};
use pld_order::order_or_loop;
use std::alloc::Global;
use std::io;
use std::io::Write;
use test_rows::Report;

/// Writes how many tests there are, and which of them are not met; an error is one that isn't.
fn put_tests<W: Write, E: Drop, const N: usize>(
    alloc: Global,
    name: &str,
    tests: Result<[bool; N], E>,
    out: &mut W,
) -> io::Result<()> {
    let mut report = Report::new(alloc, name);
    match &tests {
        Ok(tests) => count_tests(alloc, tests.as_slice(), &mut report),
        Err(_) => report.unread(0),
    }
    let found = report.end();
    out.write_all(found.bytes())
}

/// Calls the laws of loops, of layers and of orders, which do nothing.
fn call_laws() {
    no_loop();
    one_layer();
    order_or_loop();
}

/// Runs the tests that are no rows.
pub fn run_tests<W: Write>(rt: &HostRuntime, out: &mut W) -> io::Result<()> {
    call_laws();
    let alloc = rt.alloc();
    put_tests(
        alloc,
        "bits that are folded, read and valued",
        few_bits(alloc),
        out,
    )?;
    put_tests(alloc, "the limit of nodes", limit(alloc), out)?;
    put_tests(
        alloc,
        "nodes that are shared a thousand times",
        shared(alloc),
        out,
    )?;
    put_tests(alloc, "files in memory", memory_files(alloc), out)?;
    put_tests(alloc, "files that never fail", sure_files(alloc), out)?;
    put_tests(alloc, "a sink in memory", memory_sink(alloc), out)?;
    put_tests(alloc, "real files and standard output", real_files(rt), out)?;
    put_tests(alloc, "a file that is replaced", replaced_files(rt), out)?;
    put_tests(
        alloc,
        "files that are not to be lost",
        guarded_files(rt),
        out,
    )
}
