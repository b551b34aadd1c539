//! Sources, and the modules that they are read to.

use crate::faults::put_parse_fault;
use crate::scanned::tokens_of;
use abel_parser::parse;
use abel_tree::Module;
use pld_base::Place;
use std::alloc::Global;
use test_rows::Found;

/// The place after a text.
pub fn place_behind(text: &[u8]) -> Place {
    let (mut line, mut column) = (1u32, 1u32);
    for byte in text {
        if *byte == b'\n' {
            line = line.saturating_add(1);
            column = 1;
        } else {
            column = column.saturating_add(1);
        }
    }
    Place { line, column }
}

/// Bytes with a text before and a text after them.
pub fn framed(alloc: Global, front: &str, bytes: &[u8], back: &str) -> Found {
    let mut text = Found::new(alloc);
    text.text(front);
    text.put(bytes);
    text.text(back);
    text
}

/// A text without its mark `|`, and the place of the mark.
pub fn marked(alloc: Global, text: &str) -> Option<(Found, Place)> {
    match text.split_once('|') {
        Some((front, back)) => Some((
            framed(alloc, front, back.as_bytes(), ""),
            place_behind(front.as_bytes()),
        )),
        None => None,
    }
}

/// The module of a source; if it isn't one, what is found says why.
pub fn module_of(alloc: Global, source: &[u8], found: &mut Found) -> Option<Module> {
    let tokens = tokens_of(alloc, source, found)?;
    match parse(alloc, tokens.as_slice(), place_behind(source)) {
        Ok(module) => Some(module),
        Err(fault) => {
            put_parse_fault(found, fault);
            None
        }
    }
}
