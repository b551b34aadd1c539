//! Texts with what they expand to, or with the refusal.

use crate::faults::put_expand_fault;
use crate::scanned::LONGEST;
use abel_expand::{ExpandFault, Reader, expand};
use std::alloc::Global;
use test_rows::Found;

/// What a call of a reader answers: a byte, the end, or the refusal.
type Answer = Result<Option<u8>, ExpandFault>;

/// What a reader gives of a text.
#[derive(Drop)]
pub struct Given {
    pub bytes: Found,
    /// What follows the bytes.
    ending: Answer,
    /// Whether that occurs at each further call.
    stays: bool,
}

/// Whether a reader answers so at three further calls.
fn stays_so(reader: &mut Reader, ending: Answer) -> bool {
    for _ in 0..3 {
        if reader.next() != ending {
            return false;
        }
    }
    true
}

/// All that a reader gives of a text. None for a text that is too long.
pub fn given_of(alloc: Global, text: &[u8]) -> Option<Given> {
    if text.len() > LONGEST {
        return None;
    }
    let mut reader = Reader::new(alloc, text);
    let mut bytes = Found::new(alloc);
    for _ in 0..=LONGEST {
        let answer = reader.next();
        if let Ok(Some(byte)) = answer {
            bytes.put(&[byte]);
        } else {
            let stays = stays_so(&mut reader, answer);
            return Some(Given {
                bytes,
                ending: answer,
                stays,
            });
        }
    }
    None
}

/// Puts how a reader ends, if that is no plain end.
pub fn put_ending(found: &mut Found, given: &Given) {
    if let Err(fault) = given.ending {
        found.text(" refused ");
        put_expand_fault(found, fault);
    }
    if !given.stays {
        found.text(", and then something else");
    }
}

/// The bytes that a reader gives, and its refusal.
pub fn reading(alloc: Global, text: &[u8]) -> Found {
    let mut found = Found::new(alloc);
    match given_of(alloc, text) {
        Some(given) => {
            found.put(given.bytes.bytes());
            put_ending(&mut found, &given)
        }
        None => found.text("too long"),
    }
    found
}

/// Puts the offset of the byte that a reader gave last; if a macro represents it also an `m`, and if the source has it.
fn put_offset(found: &mut Found, reader: &Reader, byte: u8) {
    found.number(reader.offset());
    if reader.is_in_macro() {
        found.text("m");
        match reader.origin_of(byte) {
            Some(offset) => found.number(offset),
            None => found.text("-"),
        }
    }
    found.text(" ")
}

/// The offset of each byte that a reader gives, and the place at which it goes on after them.
pub fn offsets(alloc: Global, text: &[u8]) -> Found {
    let mut found = Found::new(alloc);
    if text.len() > LONGEST {
        found.text("too long");
        return found;
    }
    let mut reader = Reader::new(alloc, text);
    for _ in 0..=LONGEST {
        match reader.next() {
            Ok(Some(byte)) => put_offset(&mut found, &reader, byte),
            _ => break,
        }
    }
    found.text("and ");
    found.number(reader.next_offset());
    found
}

/// Puts what a text expands to, or its refusal.
fn put_expansion(alloc: Global, text: &[u8], found: &mut Found) {
    if text.len() > LONGEST {
        return found.text("too long");
    }
    match expand(alloc, text) {
        Ok(bytes) => {
            found.put(bytes.as_slice());
            if reading(alloc, text).bytes() != bytes.as_slice() {
                found.text(", and a reader gives something else")
            }
        }
        Err(fault) => {
            found.text("refused ");
            put_expand_fault(found, fault)
        }
    }
}

/// What a text expands to, as a whole and by a reader, or its refusal.
pub fn expansion(alloc: Global, text: &[u8]) -> Found {
    let mut found = Found::new(alloc);
    put_expansion(alloc, text, &mut found);
    found
}

/// The value of an expression where `n` is 5 and `m` is a macro.
pub fn value(alloc: Global, expression: &[u8]) -> Found {
    let mut text = Found::new(alloc);
    text.text("@CONST n = 5;m MACRO (x, y) {?y?x};@EXPR ");
    text.put(expression);
    text.text(";");
    let mut found = Found::new(alloc);
    let text = text.bytes();
    if text.len() > LONGEST {
        return found;
    }
    match expand(alloc, text) {
        Ok(bytes) => found.put(bytes.as_slice()),
        Err(ExpandFault::BadDirective(_)) => found.text("no value"),
        Err(fault) => put_expand_fault(&mut found, fault),
    }
    found
}
