//! Test vectors: their characters, and their refusals; headers and entries by themselves.

use crate::places::{put_blank, put_fault};
use crate::sources::{ROW, module_of, source_of};
use abel_tree::{Expr, Module, Section, Vectors};
use abel_vectors::{read_side, vectors};
use pld_base::Place;
use pld_device::{Sample, load};
use set_expr::{Scope, SectionFault};
use std::alloc::Global;
use test_rows::Found;
use truth_tables::{Entry, Mark, read_entry};

/// The beginning of the text of a row.
const HERE: Place = Place {
    line: ROW,
    column: 1,
};

/// The characters of the vectors of the one section, after so many, or its first refusal.
fn put_chars(
    alloc: Global,
    module: &Module,
    scope: &Scope<'_>,
    before: u32,
    found: &mut Found,
) -> Option<()> {
    let [section] = module.sections.as_slice() else {
        return None;
    };
    if before > 9999 {
        return None;
    }
    let device = load::<Sample, Sample>(&Sample);
    match vectors::<Sample>(alloc, &device, scope, section, before) {
        Ok(list) => {
            for vector in list.as_slice() {
                put_blank(found);
                found.put(vector.chars.split_at(10).0);
            }
        }
        Err(fault) => put_fault(Some(fault), found),
    }
    Some(())
}

/// The vectors that are the one section.
fn vectors_of(module: &Module) -> Option<&Vectors> {
    match module.sections.as_slice() {
        [Section::Vectors(vectors)] => Some(vectors),
        _ => None,
    }
}

/// The pins of a side of a header by their numbers as names.
fn put_pins(pins: &[Option<usize>], found: &mut Found) {
    for pin in pins {
        put_blank(found);
        match *pin {
            Some(name) => found.number(name),
            None => found.text("X"),
        }
    }
}

/// The inputs of the header, or their refusal.
fn put_side(alloc: Global, module: &Module, scope: &Scope<'_>, found: &mut Found) -> Option<()> {
    let header = &vectors_of(module)?.inputs;
    match read_side(alloc, scope, HERE, header) {
        Ok(Ok(pins)) => put_pins(pins.as_slice(), found),
        Ok(Err(fault)) => put_fault(Some(fault), found),
        Err(_) => return None,
    }
    Some(())
}

fn mark_text(mark: Mark) -> &'static str {
    match mark {
        Mark::Level(false) => "0",
        Mark::Level(true) => "1",
        Mark::Unknown => "X",
        Mark::Pulsed => "C",
        Mark::Released => "Z",
    }
}

/// The inputs of the header and of the one row.
fn entry_of(vectors: &Vectors) -> Option<(&Expr, &Expr)> {
    match vectors.rows.as_slice() {
        [row] => Some((&vectors.inputs, &row.inputs)),
        _ => None,
    }
}

/// What the entry of the one row says of each position of the header, or the first refusal of the header or of it.
fn put_entry(alloc: Global, module: &Module, scope: &Scope<'_>, found: &mut Found) -> Option<()> {
    let (header, entry) = entry_of(vectors_of(module)?)?;
    let row = SectionFault::BadRow(HERE);
    let checked = match scope.check(alloc, header) {
        Ok(checked) => checked,
        Err(_) => return None,
    };
    if checked.fault.is_some() {
        put_fault(checked.fault, found);
        return Some(());
    }
    match read_entry(alloc, scope, row, header, entry) {
        Ok(Entry::Marks(marks)) => {
            for mark in marks.as_slice() {
                put_blank(found);
                found.text(mark_text(*mark));
            }
        }
        Ok(Entry::Refused(fault)) => put_fault(Some(fault), found),
        Err(_) => return None,
    }
    Some(())
}

/// What precedes and after the text of a row.
fn around(question: &str) -> (&'static str, &'static str) {
    match question {
        "entries" => ("test_vectors ([.X.,[.X.,.X.]] -> a)", " -> 0;"),
        "headers" => ("test_vectors (", " -> a) 0 -> 0;"),
        _ => ("", ""),
    }
}

/// Puts what is asked of the vectors of a module.
fn put_asked(
    alloc: Global,
    question: &str,
    module: &Module,
    scope: &Scope<'_>,
    found: &mut Found,
) -> Option<()> {
    if let Some(count) = question.strip_prefix("behind ") {
        return put_chars(alloc, module, scope, count.parse::<u32>().ok()?, found);
    }
    match question {
        "entries" => put_entry(alloc, module, scope, found),
        "headers" => put_side(alloc, module, scope, found),
        _ => put_chars(alloc, module, scope, 0, found),
    }
}

/// Puts what is asked of vectors.
pub(crate) fn ask(
    alloc: Global,
    question: &str,
    names: &Found,
    text: &str,
    found: &mut Found,
) -> Option<()> {
    let (front, back) = around(question);
    let module = module_of(alloc, names, front, text, back)?;
    let source = source_of::<Sample>(alloc, &load::<Sample, Sample>(&Sample), module)?;
    let scope = Scope::new(alloc, &source.names).ok()?;
    put_asked(alloc, question, &source.module, &scope, found)
}
