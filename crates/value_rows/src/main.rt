//! Rows of expressions, statements, tables and vectors with what is found of them.
#![tactic(auto)]

mod asking;
mod bases;
mod expressions;
mod places;
mod sources;
mod statements;
mod tables;
mod targets;
mod vectors;
mod words;

use std::io::{self, Write};
use test_rows::sections;

/// Runs the rows of standard input, and gives for each section how many they are and which are not as expected.
fn main(rt: HostRuntime) -> io::Result<()> {
    let alloc = rt.alloc();
    let text = io::read_to_string(alloc, rt.stdin())?;
    let mut out = rt.stdout();
    for section in sections(alloc, text.as_str())? {
        out.write_all(asking::report(alloc, &section).bytes())?;
    }
    out.flush()
}
