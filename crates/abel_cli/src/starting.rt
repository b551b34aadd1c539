//! What the program does once it knows its words.

ghost use Rattle.std.specs.Prelude.{◌≡◌, ℕ, List, Option, Some, None};
ghost use Rattle.abel_cli.specs.Prelude.{SameFiles};
ghost use Rattle.abel_cli.specs.Call.{asked, heard};
ghost use Rattle.abel_cli.specs.Checked.{HasChecked};
ghost use Rattle.abel_cli.specs.Further.{HasCompiled};
ghost use Rattle.abel_cli.specs.Promises.{Promises};
ghost use Rattle.abel_cli.specs.Right.{IsRight};
ghost use Rattle.abel_cli.specs.Start.{words_of};

use crate::running::run;
use outside::{Files, Sink};
use std::alloc::Global;

/// The words of the command line, after the program's name.
#[derive(Drop)]
pub enum Given {
    /// Each word is UTF-8.
    Words(Vec<String>),
    /// Some word is no UTF-8.
    NotText,
    /// Memory ran out, or the system did not say.
    Unknown,
}

/// Does what the given words ask for, and answers the status that the program ends with.
///
/// If some word is no UTF-8 it is as if there were none; if the words are not known nothing is done
/// and nothing reported.
pub fn start<F: Files, K: Sink>(alloc: Global, given: &Given, files: &mut F, report: &mut K) -> u8
    // The main theorem of `run`, and all that it promises, for the words that were given.
    ensures right { (words : List (List ℕ)) → words_of given.now ≡ Some words → F.Tells
        → result ≡ 0 → IsRight words (F.file files.old) (F.file files.new) }
    ensures compiled { (words : List (List ℕ)) → words_of given.now ≡ Some words → F.Tells
        → result ≡ 0 → HasCompiled words (F.file files.old) (F.file files.new)
        K.Tells (K.taken report.old) (K.taken report.new) }
    ensures checked { (words : List (List ℕ)) → words_of given.now ≡ Some words → F.Tells
        → result ≡ 0 → HasChecked words (F.file files.new)
        K.Tells (K.taken report.old) (K.taken report.new) }
    ensures promises { (words : List (List ℕ)) → words_of given.now ≡ Some words
        → Promises (asked words F.Tells (F.file files.old) (F.file files.new)
        (F.faults files.old) (F.faults files.new) (F.write_faults files.old)
        (F.write_faults files.new)) (heard K.Tells (K.taken report.old) (K.taken report.new)
        (K.faults report.old) (K.faults report.new) result) }
    // If the words are not known.
    ensures status { words_of given.now ≡ None → result ≡ 8 }
    ensures files { words_of given.now ≡ None → F.Tells
        → SameFiles (F.file files.old) (F.file files.new) }
    ensures report { words_of given.now ≡ None → K.taken report.new ≡ K.taken report.old }
{
    match given {
        Given::Words(words) => run(alloc, words, files, report),
        Given::NotText => run(alloc, &[], files, report),
        Given::Unknown => 8,
    }
}
