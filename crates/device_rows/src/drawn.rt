//! Sources are drawn.

use demo_source::demo_text;
use std::alloc::Global;
use test_rows::{Found, Report, Row, Section};

/// The bytes before the equations.
const HEAD: usize = 196;

/// Each byte weighs 31 times as much as the one after it, modulo 65,521.
fn sum_of(text: &[u8]) -> u32 {
    let mut sum: u32 = 0;
    for byte in text {
        sum = sum.wrapping_mul(31).wrapping_add(u32::from(*byte)) % 65_521;
    }
    sum
}

/// Reports a text's length and its sum after its number.
fn report_sum(alloc: Global, text: &[u8], seed: u16, row: &Row<'_>, report: &mut Report<'_>) {
    let mut found = Found::new(alloc);
    found.number(usize::from(seed));
    found.text(" ");
    found.number(text.len());
    found.text(" ");
    found.number(sum_of(text) as usize);
    report.row(row.number, row.text.as_bytes(), &found);
}

/// Reports the first line of the equations.
fn report_equation(alloc: Global, text: &[u8], row: &Row<'_>, report: &mut Report<'_>) {
    let mut found = Found::new(alloc);
    let (_head, equations) = text.split_at(text.len().min(HEAD));
    let (line, behind) = equations.split_at(equations.len().min(row.text.len()));
    found.put(line);
    if !behind.starts_with(b"\n") {
        found.text("..");
    }
    report.row(row.number, row.text.as_bytes(), &found);
}

/// Reports the lines at the end.
fn report_end(alloc: Global, text: &[u8], rows: &[Row<'_>], report: &mut Report<'_>) {
    let mut wanted = Found::new(alloc);
    let mut number = 0;
    for row in rows {
        wanted.text(row.text);
        wanted.text("\n");
        number = row.number;
    }
    let length = wanted.bytes().len();
    let (_front, end) = text.split_at(text.len().saturating_sub(length));
    let mut found = Found::new(alloc);
    found.put(end);
    report.row(number, wanted.bytes(), &found);
}

/// Draws the source of a block, and reports its parts.
fn ask_source(alloc: Global, block: &[Row<'_>], report: &mut Report<'_>) {
    let [first, equation, end @ ..] = block else {
        return report.unread(0);
    };
    let number = first.text.split(' ').next().unwrap_or("");
    let seed = number.parse::<u16>().unwrap_or(0);
    match demo_text(alloc, seed) {
        Ok(text) => {
            report_sum(alloc, &text, seed, first, report);
            report_equation(alloc, &text, equation, report);
            report_end(alloc, &text, end, report);
        }
        Err(_) => report.unread(first.number),
    }
}

/// Draws the sources of a section.
pub fn ask_drawn(alloc: Global, section: &Section<'_>, report: &mut Report<'_>) -> bool {
    if section.name != "sources that are drawn" {
        return false;
    }
    match section.blocks(alloc) {
        Ok(blocks) => {
            for block in &blocks {
                ask_source(alloc, block.as_slice(), report);
            }
        }
        Err(_) => report.unread(0),
    }
    true
}
