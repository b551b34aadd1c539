//! Lists, boxes, levels, texts and digits are what they were made of.

use crate::places::put_blank;
use pld_base::{
    Boxed, DeviceName, ListOf, NameText, level_at, put_decimal, put_four_digits, put_hex,
    with_level, with_value,
};
use std::alloc::Global;
use test_rows::{Found, unescaped};

/// A name's text and its copy, in brackets.
fn put_text(alloc: Global, text: &str, found: &mut Found) -> Option<()> {
    let bytes = unescaped(alloc, text)?;
    let name = NameText::new(alloc, bytes.as_slice()).ok()?;
    let copy = name.copy(alloc).ok()?;
    for bytes in [name.bytes(), copy.bytes()] {
        found.text("[");
        found.put(bytes);
        found.text("]");
    }
    Some(())
}

fn put_bytes(bytes: &[u8], found: &mut Found) {
    for byte in bytes {
        put_blank(found);
        found.number(usize::from(*byte));
    }
}

/// A list as it is seen, and as it is taken apart.
fn put_list(alloc: Global, found: &mut Found) -> Option<()> {
    let list = ListOf::from_vec(Vec::from_slice(alloc, &[3u8, 1]).ok()?);
    put_bytes(list.as_slice(), found);
    found.text(",");
    put_bytes(list.into_vec().as_slice(), found);
    Some(())
}

/// What is in a box as it is seen, and as it is taken out.
fn put_box(alloc: Global, found: &mut Found) -> Option<()> {
    let boxed = Boxed::new(alloc, 7u8).ok()?;
    put_bytes(&[*boxed.get()], found);
    put_bytes(&[boxed.into_inner()], found);
    Some(())
}

/// Pins of which the 19th alone is high, and whether it and the 18th are.
fn put_pins(found: &mut Found) {
    let pins = with_level(0, 19, true);
    found.number(pins as usize);
    found.text(if level_at(pins, 19) { " 1" } else { " 0" });
    found.text(if level_at(pins, 18) { " 1" } else { " 0" })
}

/// The topmost of all nodes, if it alone is 1.
fn put_nodes(found: &mut Found) {
    let nodes = with_value(0, 127, true);
    found.text(if nodes >> 127 == 1 { "1" } else { "0" })
}

/// The digits of a number, as they are asked for.
fn put_digits(alloc: Global, text: &str, found: &mut Found) -> Option<()> {
    let mut digits = Vec::new(alloc);
    match text {
        "BDF in hexadecimal" => put_hex(&mut digits, 0xBDF).ok()?,
        "93 in decimal" => put_decimal(alloc, &mut digits, 93).ok()?,
        "0 in decimal" => put_decimal(alloc, &mut digits, 0).ok()?,
        _ => put_four_digits(&mut digits, 32).ok()?,
    }
    found.put(digits.as_slice());
    Some(())
}

/// Puts what results from a case.
pub(crate) fn ask(alloc: Global, question: &str, text: &str, found: &mut Found) -> Option<()> {
    match question {
        "texts" => return put_text(alloc, text, found),
        "digits" => return put_digits(alloc, text, found),
        _ => {}
    }
    match text {
        "a list of 3 and 1" => return put_list(alloc, found),
        "a box of 7" => return put_box(alloc, found),
        "pin 19" => put_pins(found),
        "node 127" => put_nodes(found),
        "the size of a text" => found.number(size_of::<NameText>()),
        _ => found.text(DeviceName::GAL22V10.text()),
    }
    Some(())
}
