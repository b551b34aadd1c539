//! Sets of attributes, in words.

use abel_tree::Attributes;
use bitflags::Flags;
use std::alloc::Global;
use test_rows::Found;

const WORDS: [(Attributes, &str); 5] = [
    (Attributes::COM, "com"),
    (Attributes::REG, "reg"),
    (Attributes::BUFFER, "buffer"),
    (Attributes::INVERT, "invert"),
    (Attributes::DC, "dc"),
];

/// Puts the words of the attributes that are in a set, each after a blank.
pub fn put_attributes(found: &mut Found, set: Attributes) {
    for (attribute, word) in WORDS {
        if set.contains(attribute) {
            found.text(" ");
            found.text(word);
        }
    }
}

/// The set with the attribute of a word.
fn with_word(set: Attributes, word: &str) -> Attributes {
    for (attribute, name) in WORDS {
        if name == word {
            return set.union(attribute);
        }
    }
    set
}

/// The bits of the set of some words, and which attributes are in it.
pub fn attribute_set(alloc: Global, words: &str) -> Found {
    let mut set = Attributes(0);
    for word in words.split_whitespace() {
        set = with_word(set, word);
    }
    let mut found = Found::new(alloc);
    found.number(usize::from(set.0));
    put_attributes(&mut found, set);
    found
}
