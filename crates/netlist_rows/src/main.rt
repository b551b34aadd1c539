//! Rows of sums, netlists, chains, refusals, runs and fits with what is found of them.
#![tactic(auto)]

mod alike;
mod asking;
mod chains;
mod drawing;
mod fits;
mod links;
mod mixed;
mod netlists;
mod places;
mod refusals;
mod runs;
mod sources;
mod sums;
mod unfit;

use std::io::{self, Write};
use test_rows::sections;

/// Runs the rows of standard input, and gives for each section how many they are and which are not as expected.
fn main(rt: HostRuntime) -> io::Result<()> {
    let alloc = rt.alloc();
    let text = io::read_to_string(alloc, rt.stdin())?;
    let mut out = rt.stdout();
    for section in sections(alloc, text.as_str())? {
        out.write_all(asking::report(alloc, &section).bytes())?;
    }
    out.flush()
}
