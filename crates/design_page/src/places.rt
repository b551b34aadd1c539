//! The place of the places of the expanded text in the source.

ghost use Rattle.std.specs.Prelude.{◌≡◌, ◌≤◌, ◌<◌, ◌+◌, IfOk, IfSome, length};

use abel_expand::{ExpandFault, Reader, expand};
use abel_tree::is_before;
use pld_base::{OutOfMemory, Place};
use std::alloc::Global;

/// The first place of a text.
const START: Place = Place { line: 1, column: 1 };

/// A place of the expanded text, and its place in the source. What a macro or a directive represents is if its bytes are
/// written, and is expanded elsewhere: at the outermost call.
#[derive(Clone, Copy)]
pub struct Found {
    pub expanded: Place,
    pub source: Place,
    pub call: Option<Place>,
}

/// The place of each byte of the expanded text, and its end.
#[derive(Drop)]
pub struct Origins {
    bytes: Vec<Found>,
    end: Found,
}

/// The place after a byte.
fn place_behind(place: Place, byte: u8) -> Place {
    if byte == b'\n' {
        Place {
            line: place.line.saturating_add(1),
            column: 1,
        }
    } else {
        Place {
            line: place.line,
            column: place.column.saturating_add(1),
        }
    }
}

/// The places of all offsets of a text, its end too.
fn places_in(alloc: Global, text: &[u8]) -> Result<Vec<Place>, OutOfMemory> {
    let mut places = Vec::new(alloc);
    let mut place = START;
    places.push(place)?;
    for byte in text {
        place = place_behind(place, *byte);
        places.push(place)?;
    }
    Ok(places)
}

/// The place of an offset.
fn place_at(places: &[Place], offset: usize) -> Place {
    match places.get(offset) {
        Some(place) => *place,
        None => START,
    }
}

/// The place of the byte that a reader gave last, at this place of the expanded text.
fn found_at(reader: &Reader, places: &[Place], byte: u8, expanded: Place) -> Found {
    let outer = place_at(places, reader.offset());
    if !reader.is_in_macro() {
        return Found {
            expanded,
            source: outer,
            call: None,
        };
    }
    let source = match reader.origin_of(byte) {
        Some(offset) => place_at(places, offset),
        None => outer,
    };
    Found {
        expanded,
        source,
        call: Some(outer),
    }
}

/// The next byte of the expanded text, none if the text ends or is refused.
fn next_of(reader: &mut Reader) -> Result<Option<u8>, OutOfMemory>
    ensures count { IfOk result (λ o. IfSome o (λ b. (reader.new.given ≡ reader.old.given + 1) × (reader.old.given < 1048576))) }
{
    match reader.next() {
        Ok(byte) => Ok(byte),
        Err(ExpandFault::OutOfMemory) => Err(OutOfMemory),
        Err(_) => Ok(None),
    }
}

/// The places of the bytes of the expanded text of a source in it, as far as it is expanded.
pub fn origins_of(alloc: Global, text: &[u8]) -> Result<Origins, OutOfMemory>
    requires { length text.now ≤ 1048576 }
{
    let places = places_in(alloc, text)?;
    let mut reader = Reader::new(alloc, text);
    let mut bytes = Vec::new(alloc);
    let mut expanded = START;
    'bytes: while let Some(byte) = next_of(&mut reader)? {
        bytes.push(found_at(&reader, &places, byte, expanded))?;
        expanded = place_behind(expanded, byte);
    }
    let end = Found {
        expanded,
        source: place_at(&places, reader.next_offset()),
        call: None,
    };
    Ok(Origins { bytes, end })
}

impl Origins {
    /// Whether the byte of this number precedes a place of the expanded text.
    fn is_passed(&self, index: usize, place: Place) -> bool {
        match self.bytes.get(index) {
            Some(found) => is_before(&found.expanded, &place),
            None => false,
        }
    }

    /// The place of a place of the expanded text: the first byte there, or the end. Takes no memory.
    pub fn at(&self, place: Place) -> Found {
        let mut low = 0usize;
        let mut high = self.bytes.len();
        'halves: while low < high {
            let middle = low + (high - low) / 2;
            if self.is_passed(middle, place) {
                low = middle + 1;
            } else {
                high = middle;
            }
        }
        match self.bytes.get(low) {
            Some(found) => *found,
            None => self.end,
        }
    }
}

/// The expanded text, as far as there is one.
pub fn expanded_text(alloc: Global, text: &[u8]) -> Result<Vec<u8>, OutOfMemory>
    requires { length text.now ≤ 1048576 }
{
    match expand(alloc, text) {
        Ok(expanded) => Ok(expanded),
        Err(ExpandFault::OutOfMemory) => Err(OutOfMemory),
        Err(_) => Ok(Vec::from_slice(alloc, text)?),
    }
}
