//! A line that gives a word, a place and names.

ghost use Rattle.std.specs.Prelude.{◌≡◌, ◌++◌, Some, IfOk, OnOk};
ghost use Rattle.reports.specs.Prelude.{entries_of};
ghost use Rattle.reports.specs.DesignTold.{names_text, told};

use crate::telling::{begin_line, put_tail};
use crate::words::name_of;
use abel_tree::Names;
use pld_base::{OutOfMemory, Place};
use std::alloc::Global;

/// Appends the names of these numbers, each after a blank.
pub(crate) fn put_names(
    text: &mut Vec<u8>,
    names: &Names,
    numbers: &[usize],
) -> Result<(), OutOfMemory>
    ensures { OnOk result (text.new.items
        ≡ text.old.items ++ names_text (entries_of names.now) numbers.now) }
{
    for number in numbers {
        put_tail(text, name_of(names, *number))?;
    }
    Ok(())
}

/// The line that gives the names of these numbers.
pub(crate) fn told(
    alloc: Global,
    names: &Names,
    word: &[u8],
    place: Place,
    numbers: &[usize],
) -> Result<Vec<u8>, OutOfMemory>
    ensures { IfOk result (λ line.
        told (entries_of names.now) word.now place numbers.now ≡ Some line.items) }
{
    let mut line = begin_line(alloc, word, place)?;
    put_names(&mut line, names, numbers)?;
    line.push(b'\n')?;
    Ok(line)
}
