//! Refusals with their lines, and texts with their modules.

use crate::faults::{put_expand_fault, put_parse_fault, put_scan_fault};
use crate::scanned::LONGEST;
use abel_lexer::ScanFault;
use abel_tree::{Attributes, Declared, Meaning, Names};
use decls::NameFault;
use module_reader::{ReadFault, read_module};
use pld_base::{DeviceName, ListOf, NameText, OutOfMemory, Place};
use reports::{name_line, read_line, section_line};
use set_expr::SectionFault;
use std::alloc::Global;
use test_rows::Found;

const PLACE: Place = Place {
    line: 12,
    column: 305,
};

/// The names of a source that declares the pin Y.
fn names(alloc: Global) -> Result<Names, OutOfMemory> {
    let mut list = Vec::new(alloc);
    list.push(Declared {
        name: NameText::new(alloc, b"Y")?,
        place: PLACE,
        meaning: Meaning::Pin {
            pin: 19,
            negated: false,
        },
        attributes: Attributes::COM,
        assigned: true,
    })?;
    Ok(Names {
        list: ListOf::from_vec(list),
        device: DeviceName::P16L8,
    })
}

/// The line of a name's refusal.
fn named_line(alloc: Global) -> Result<Vec<u8>, OutOfMemory> {
    let fault = NameFault::PinTaken(PLACE, NameText::new(alloc, b"Rst")?);
    name_line(alloc, &fault)
}

/// The line of a section's refusal.
fn line_over_names(alloc: Global, fault: SectionFault) -> Result<Vec<u8>, OutOfMemory> {
    section_line(alloc, &names(alloc)?, &fault)
}

/// The line of the refusal that some words give.
fn line_of(alloc: Global, words: &str) -> Result<Vec<u8>, OutOfMemory> {
    match words {
        "BadNumber of a text" => read_line(alloc, ReadFault::Scan(ScanFault::BadNumber(PLACE))),
        "PinTaken of the name Rst" => named_line(alloc),
        "MixedAssignment of name 0" => {
            line_over_names(alloc, SectionFault::MixedAssignment(PLACE, 0))
        }
        "NotAnOutput of no name" => line_over_names(alloc, SectionFault::NotAnOutput(PLACE, None)),
        _ => Ok(Vec::new(alloc)),
    }
}

/// The line of the refusal that some words give, as a text.
pub fn line(alloc: Global, words: &str) -> Found {
    let mut found = Found::new(alloc);
    match line_of(alloc, words) {
        Ok(line) => found.put(line.as_slice()),
        Err(_) => found.text("no memory"),
    }
    found
}

/// Puts which phase refuses a text, and its refusal.
fn put_read_fault(found: &mut Found, fault: ReadFault) {
    match fault {
        ReadFault::Expand(fault) => {
            found.text("Expand ");
            put_expand_fault(found, fault)
        }
        ReadFault::Scan(fault) => {
            found.text("Scan ");
            put_scan_fault(found, fault)
        }
        ReadFault::Parse(fault) => {
            found.text("Parse ");
            put_parse_fault(found, fault)
        }
        ReadFault::OutOfMemory => found.text("OutOfMemory"),
    }
}

/// The name of a text's module and how many declarations it has, or the refusal.
pub fn module(alloc: Global, text: &[u8]) -> Found {
    let mut found = Found::new(alloc);
    if text.len() > LONGEST {
        return found;
    }
    match read_module(alloc, text) {
        Ok(module) => {
            found.put(module.name.text.bytes());
            found.text(" ");
            found.number(module.decls.as_slice().len())
        }
        Err(fault) => put_read_fault(&mut found, fault),
    }
    found
}
