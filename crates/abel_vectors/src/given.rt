//! The characters that the entries of a row give to pins.

ghost use Rattle.std.specs.Prelude.{◌≡◌, IfOk};
ghost use Rattle.abel_vectors.specs.Prelude.{list_any, entries_of, view_mark};
ghost use Rattle.abel_vectors.specs.{char_in, found_at, chars_read, disagree, gives_another, position_gives, position_pulses, pulse_read};

use crate::chars::{Role, role_char};
use crate::pins::pin_at;
use pld_base::OutOfMemory;
use set_expr::Scope;
use std::alloc::Global;
use truth_tables::Mark;

/// The character that a mark gives at a position of a header, with its pin; None if it gives none.
fn char_at(scope: &Scope<'_>, role: Role, signal: Option<usize>, mark: Mark) -> Option<(u8, u8)>
    ensures { result ≡ position_gives (entries_of scope.now) (char_in role) signal (view_mark mark) }
{
    let (pin, negated) = pin_at(scope, signal)?;
    let char = role_char(role, negated, mark)?;
    Some((pin, char))
}

/// The characters of a side of a row, each with its pin.
pub(crate) fn side_chars(
    alloc: Global,
    scope: &Scope<'_>,
    role: Role,
    signals: &[Option<usize>],
    marks: &[Mark],
) -> Result<Vec<(u8, u8)>, OutOfMemory>
    ensures { IfOk result (λ list. list.items ≡ chars_read (entries_of scope.now) (char_in role) signals.now marks.now) }
{
    let list = signals
        .iter()
        .zip(marks.iter())
        .filter_map(|(signal, mark)| char_at(scope, role, *signal, *mark))
        .collect(alloc)?;
    Ok(list)
}

/// Whether a mark is `.C.` at a position that is a pin.
fn is_pulsed(signal: Option<usize>, mark: Mark) -> bool
    ensures { result ≡ position_pulses signal (view_mark mark) }
{
    match signal {
        None => false,
        Some(_) => matches!(mark, Mark::Pulsed),
    }
}

/// Whether `.C.` is at a position of a side that is a pin.
pub(crate) fn tests_pulse(signals: &[Option<usize>], marks: &[Mark]) -> bool
    ensures { result ≡ pulse_read signals.now marks.now }
{
    signals
        .iter()
        .zip(marks.iter())
        .any(|(signal, mark)| is_pulsed(*signal, *mark))
}

/// The first character that is given to a pin.
pub(crate) fn first_at(list: &[(u8, u8)], pin: u8) -> Option<u8>
    ensures { result ≡ found_at list.now pin }
{
    for given in list {
        if given.0 == pin {
            return Some(given.1);
        }
    }
    None
}

/// Whether a pin has another character there than here.
fn gives_another(here: (u8, u8), there: (u8, u8)) -> bool
    ensures { result ≡ gives_another here there }
{
    here.0 == there.0 && here.1 != there.1
}

/// Whether one of the characters after is another one for the same pin.
fn is_contradicted(here: (u8, u8), behind: &[(u8, u8)]) -> bool
    ensures { result ≡ list_any (gives_another here) behind.now }
{
    behind.iter().any(|there| gives_another(here, *there))
}

/// Whether some pin gets two characters that differ.
pub(crate) fn disagree(list: &[(u8, u8)]) -> bool
    ensures { result ≡ disagree list.now }
{
    match list.split_first() {
        None => false,
        Some((here, behind)) => is_contradicted(*here, behind) || disagree(behind),
    }
}
