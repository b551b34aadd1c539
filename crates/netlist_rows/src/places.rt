//! Places and lists as a row gives them.

use crate::sources::ROW;
use pld_base::Place;
use test_rows::Found;

/// Parts what results from what is there, if anything does.
pub(crate) fn put_blank(found: &mut Found) {
    if !found.bytes().is_empty() {
        found.text(" ")
    }
}

/// A word after what is there.
pub(crate) fn put_word(word: &str, found: &mut Found) {
    put_blank(found);
    found.text(word)
}

/// A number after what is there.
pub(crate) fn put_number(number: usize, found: &mut Found) {
    put_blank(found);
    found.number(number)
}

/// The column, and the line too if it is another than the row's.
pub(crate) fn put_place(place: Place, found: &mut Found) {
    put_blank(found);
    if place.line != ROW {
        found.number(place.line as usize);
        found.text(":");
    }
    found.number(place.column as usize)
}

/// A kind of refusal with its place and the name that is reported.
pub(crate) fn put_refusal(kind: &str, place: Place, name: usize, found: &mut Found) {
    put_word(kind, found);
    put_place(place, found);
    put_word("name", found);
    put_number(name, found)
}
