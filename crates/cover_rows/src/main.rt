//! Rows of cubes, covers, formulas and plans with what is made of them.
#![tactic(auto)]

mod asking;
mod cubes;
mod formulas;
mod functions;
mod lowered;
mod minimised;
mod operations;
mod pairs;
mod plans;

use std::io::{self, Write};
use test_rows::sections;

/// Runs the rows of standard input, and gives for each section how many they are and which are not as expected.
fn main(rt: HostRuntime) -> io::Result<()> {
    let alloc = rt.alloc();
    let text = io::read_to_string(alloc, rt.stdin())?;
    let mut out = rt.stdout();
    for section in sections(alloc, text.as_str())? {
        out.write_all(asking::report(alloc, &section).bytes())?;
    }
    out.flush()
}
