//! What follows the first refusal: no refusal there can precede it.

ghost use Rattle.std.specs.Prelude.{◌≡◌, ◌&&◌};
ghost use Rattle.decls.specs.Passed.{is_behind, items_behind, words_behind};

use crate::fault::stands_before;
use crate::table::NameTable;
use abel_tree::{Item, Ranked, Word};
use pld_base::Place;

impl NameTable {
    /// Whether something is refused before this place.
    pub(crate) fn is_behind(&self, place: Place) -> bool
        ensures { result ≡ is_behind self.now.fault place }
    {
        match &self.fault {
            Some(fault) => stands_before(fault.place(), place),
            None => false,
        }
    }

    /// Whether something is refused before all of these items.
    pub(crate) fn items_behind(&self, items: &[Item]) -> bool
        ensures { result ≡ items_behind self.now.fault items.now }
    {
        for item in items {
            if !self.is_behind(item.first.place) {
                return false;
            }
        }
        true
    }

    /// Whether something is refused before all of these strings.
    pub(crate) fn words_behind(&self, words: &[Word]) -> bool
        ensures { result ≡ words_behind self.now.fault words.now }
    {
        for word in words {
            if !self.is_behind(word.place) {
                return false;
            }
        }
        true
    }

    /// Whether something is refused before all of a declaration.
    pub(crate) fn declaration_behind(&self, names: &[Item], attributes: &[Word]) -> bool
        ensures { result ≡ (items_behind self.now.fault names.now && words_behind self.now.fault attributes.now) }
    {
        self.items_behind(names) && self.words_behind(attributes)
    }
}
