//! What a fuse file says, or why bytes aren't one, as text.

use jedec_reader::{FuseFile, JedecFault};
use pld_base::Vector;
use test_rows::Found;

/// Appends the fuses that are 1, as runs: each from its first one up to the next fuse that is 0.
fn put_ones(levels: &[bool], found: &mut Found) {
    let mut before = false;
    for (fuse, level) in levels.iter().enumerate() {
        if *level && !before {
            found.text(" ");
            found.number(fuse);
            found.text("..");
        }
        if !*level && before {
            found.number(fuse);
        }
        before = *level;
    }
}

/// Appends the characters at pins 1 to 10.
fn put_chars(vector: &Vector, found: &mut Found) {
    found.text(" ");
    let (chars, _behind) = vector.chars.split_at(10);
    found.put(chars);
}

/// Appends what a file says: the number of fuses, those that are 1, the level of pins that are not driven if it is 1,
/// and the vectors.
pub fn put_file(file: &FuseFile, found: &mut Found) {
    found.number(usize::from(file.listed));
    found.text(":");
    put_ones(file.fuses.levels(), found);
    if file.default_level {
        found.text(" X1");
    }
    for vector in file.vectors.as_slice() {
        put_chars(vector, found);
    }
}

/// Appends a word and the number that goes with it.
fn put_at(word: &str, number: usize, found: &mut Found) {
    found.text(word);
    found.text("(");
    found.number(number);
    found.text(")");
}

/// Appends a word and two sums that differ.
fn put_sums(word: &str, read: u16, sum: u16, found: &mut Found) {
    found.text(word);
    found.text(" { read: ");
    found.number(usize::from(read));
    found.text(", found: ");
    found.number(usize::from(sum));
    found.text(" }");
}

/// Appends why bytes are no file.
pub fn put_fault(fault: &JedecFault, found: &mut Found) {
    match fault {
        JedecFault::NoStart => found.text("NoStart"),
        JedecFault::NoEnd => found.text("NoEnd"),
        JedecFault::FileSum { read, found: sum } => put_sums("FileSum", *read, *sum, found),
        JedecFault::BadField(place) => put_at("BadField", *place, found),
        JedecFault::UnsupportedField(place) => put_at("UnsupportedField", *place, found),
        JedecFault::WrongSize => found.text("WrongSize"),
        JedecFault::Unlisted(fuse) => put_at("Unlisted", usize::from(*fuse), found),
        JedecFault::FuseSum { read, found: sum } => put_sums("FuseSum", *read, *sum, found),
        JedecFault::OutOfMemory => found.text("no memory"),
    }
}
