//! What the strings of a declaration say, and which of them are refused.

ghost use Rattle.std.specs.Prelude.{◌≡◌, ◌||◌, ℕ, List, Bool, map};
ghost use Rattle.decls.specs.Prelude.{list_any, Table, said_by_either, no_words, all_said, words_of};
ghost use Rattle.decls.specs.Attributes.{clash, brings_clash, is_refused_string, string_refused, strings_refused};
ghost use Rattle.decls.specs.Pieces.{Tells};
ghost use Rattle.decls.specs.Shown.{Shows, view_said};
ghost use Rattle.decls.specs.Steps.{Progress, refuse_all};

use crate::fault::NameFault;
use crate::said::{NOTHING, Said};
use crate::strings::{StringWords, said_by_both, words_in};
use crate::table::NameTable;
use abel_tree::Word;

/// What the strings of a declaration say.
pub(crate) fn all_in(strings: &[Word]) -> Said
    ensures { view_said result ≡ all_said strings.now }
{
    let mut said = NOTHING;
    for string in strings {
        said = said_by_both(said, words_in(string.text.bytes()).said);
    }
    said
}

/// Whether what is said now brings the second of two words that contradict each other, if these were
/// said before.
fn is_clash(now: Said, before: Said) -> bool
    ensures { result ≡ brings_clash (view_said now) (view_said before) }
{
    has_clash(said_by_both(before, now)) && !has_clash(before)
}

/// Whether two of these words contradict each other.
fn has_clash(said: Said) -> bool
    ensures { result ≡ clash (view_said said) }
{
    (said.combinational && said.registered) || (said.buffer && said.invert)
}

/// Whether it does for one of several names.
fn is_clash_for(befores: &[Said], earlier: Said, now: Said) -> bool
    ensures { result ≡ list_any (λ b. brings_clash (view_said now) (said_by_either (view_said b) (view_said earlier))) befores.now }
{
    for before in befores {
        if is_clash(now, said_by_both(*before, earlier)) {
            return true;
        }
    }
    false
}

/// Whether one of two holds.
fn is_either(one: bool, other: bool) -> bool
    ensures { result ≡ (one || other) }
{
    one || other
}

/// Whether a string of these words is refused.
fn is_refused(befores: &[Said], earlier: Said, words: StringWords) -> bool
    ensures { (ws : List (List ℕ)) → Tells words ws → result ≡ is_refused_string (map view_said befores.now) (view_said earlier) ws }
{
    is_either(words.unknown, is_clash_for(befores, earlier, words.said))
}

impl NameTable {
    /// Refuses a string with an unknown word, or with one that contradicts what was said before.
    fn check_string(&mut self, befores: &[Said], earlier: Said, string: &Word, words: StringWords)
        requires { Tells words (words_of string.now.text) }
        ensures { (t : Table) (s : Progress) → Shows t self.old s → Shows t self.new (refuse_all (string_refused (map view_said befores.now) (view_said earlier) string.now) s) }
    {
        if is_refused(befores, earlier, words) {
            self.refuse(NameFault::BadAttribute(string.place));
        }
    }

    /// Refuses strings one after the other; what was said of the names before is in `befores`.
    pub(crate) fn check_strings(&mut self, befores: &[Said], strings: &[Word])
        ensures { (t : Table) (s : Progress) → Shows t self.old s → Shows t self.new (refuse_all (strings_refused (map view_said befores.now) no_words strings.now) s) }
    {
        let mut earlier = NOTHING;
        for string in strings {
            let words = words_in(string.text.bytes());
            self.check_string(befores, earlier, string, words);
            earlier = said_by_both(earlier, words.said);
        }
    }
}
