//! Pins that have no numbers, and a law of names, as the contract of a call that does nothing.

ghost use Rattle.std.specs.Prelude.{◌≡◌};
ghost use Rattle.declared_names.specs.Prelude.{entries_of, view_meaning, are_numbered, is_unnumbered};
ghost use Rattle.declared_names.specs.{NumberedNamesAreSound, NumberedPinsAreApart};

use abel_tree::{Meaning, Names};

/// Whether it is a pin without a number.
pub fn is_unnumbered(meaning: &Meaning) -> bool
    ensures { result ≡ is_unnumbered (view_meaning meaning.now) }
{
    matches!(meaning, Meaning::Pin { pin: 0, negated: _ })
}

/// Whether each pin has a number.
pub fn are_numbered(names: &Names) -> bool
    ensures { result ≡ are_numbered (entries_of names.now) }
{
    for declared in names.list.as_slice() {
        if is_unnumbered(&declared.meaning) {
            return false;
        }
    }
    true
}

/// If each pin has a number, names are sound, and no two are one pin. Does nothing.
pub fn numbered_names()
    ensures sound { NumberedNamesAreSound }
    ensures apart { NumberedPinsAreApart }
{}
