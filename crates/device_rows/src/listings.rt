//! Fuses of the sample device are listed.

use crate::sample::sample_device;
use crate::texts::fuses_of;
use abel_tree::{Attributes, Declared, Meaning, Names};
use fuse_listing::listing;
use pld_base::{DeviceName, ListOf, NameText, OutOfMemory, Place};
use std::alloc::Global;
use test_rows::{Found, Report, Row, Section};

/// The name of a pin: `NAME=PIN`, with `!` before it for a complement and `*` after it if it is assigned.
fn declared(alloc: Global, word: &str) -> Result<Declared, OutOfMemory> {
    let (name, pin) = word.split_once('=').unwrap_or((word, ""));
    let plain = name.strip_prefix("!").unwrap_or(name);
    let number = pin.strip_suffix("*").unwrap_or(pin);
    Ok(Declared {
        name: NameText::new(alloc, plain.as_bytes())?,
        place: Place { line: 1, column: 1 },
        meaning: Meaning::Pin {
            pin: number.parse::<u8>().unwrap_or(0),
            negated: name.starts_with("!"),
        },
        attributes: Attributes::COM,
        assigned: pin.ends_with("*"),
    })
}

/// The names of a text, with blanks between them.
fn names_of(alloc: Global, text: &str) -> Result<Names, OutOfMemory> {
    let mut list = Vec::new(alloc);
    for word in text.split_whitespace() {
        list.push(declared(alloc, word)?)?;
    }
    Ok(Names {
        list: ListOf::from_vec(list),
        device: DeviceName::GAL22V10,
    })
}

/// Appends the listing of fuses in names.
fn put_listing(alloc: Global, names: &str, fuses: &str, found: &mut Found) {
    match (names_of(alloc, names), fuses_of(alloc, fuses, 60)) {
        (Ok(names), Some(fuses)) => match listing(alloc, &sample_device(), &names, &names, &fuses) {
            Ok(list) => found.put(&list),
            Err(_) => found.text("no memory"),
        },
        _ => found.text("no fuses"),
    }
}

/// Lists the fuses of a block, and reports the listing.
fn ask_listing(alloc: Global, block: &[Row<'_>], report: &mut Report<'_>) {
    if let [names, fuses, lines @ ..] = block {
        let mut wanted = Found::new(alloc);
        for line in lines {
            wanted.text(line.text);
            wanted.text("\n");
        }
        let mut found = Found::new(alloc);
        put_listing(alloc, names.text, fuses.text, &mut found);
        report.row(names.number, wanted.bytes(), &found);
    }
}

/// Lists the fuses of a section.
pub fn ask_listings(alloc: Global, section: &Section<'_>, report: &mut Report<'_>) -> bool {
    if section.name != "listings" {
        return false;
    }
    match section.blocks(alloc) {
        Ok(blocks) => {
            for block in &blocks {
                ask_listing(alloc, block.as_slice(), report);
            }
        }
        Err(_) => report.unread(0),
    }
    true
}
