//! The pins of names, and their characters in a vector.

ghost use Rattle.std.specs.Prelude.{◌≡◌, ℕ, map};
ghost use Rattle.abel_vectors.specs.Prelude.{range_with_len, chars_of, entries_of, view_meaning};
ghost use Rattle.abel_meaning.specs.Vectors as meant;
ghost use Rattle.abel_vectors.specs.{found_at};
ghost use Rattle.abel_vectors.specs.VectorRefusals as refused;

use crate::given::first_at;
use abel_tree::Meaning;
use pld_base::Vector;
use pld_device::{Device, Loaded};
use set_expr::Scope;

/// The pin of a name that means this, and whether the name is its complement; None if it is no pin's.
fn pin_of(meaning: &Meaning) -> Option<(u8, bool)>
    ensures { result ≡ refused.pin_of (view_meaning meaning.now) }
{
    match meaning {
        Meaning::Pin { pin, negated } => Some((*pin, *negated)),
        _ => None,
    }
}

/// The same of the name at a position of a header; None at X too.
pub(crate) fn pin_at(scope: &Scope<'_>, signal: Option<usize>) -> Option<(u8, bool)>
    ensures { result ≡ refused.pin_at (entries_of scope.now) signal }
{
    let list = scope.list();
    let number = signal?;
    if number < list.len() {
        pin_of(&list[number].meaning)
    } else {
        None
    }
}

/// The character of a pin: the first that is given to it, else its plain one.
fn pin_char<D: Device>(device: &Loaded<D>, list: &[(u8, u8)], pin: u8) -> u8
    ensures { result ≡ meant.char_or_plain D.table pin (found_at list.now pin) }
{
    match first_at(list, pin) {
        Some(char) => char,
        None if pin == device.ground() || pin == device.pins() => b'N',
        None => b'X',
    }
}

/// The vector in which these characters are given; past the device's last pin it has N.
pub(crate) fn vector_of<D: Device>(device: &Loaded<D>, list: &[(u8, u8)]) -> Vector
    ensures { chars_of D.table result ≡ map (λ (pin : ℕ). meant.char_or_plain D.table pin (found_at list.now pin)) (range_with_len 1 D.table.pins) }
{
    let mut chars = [b'N'; 24];
    for index in 0..device.pins() {
        chars[usize::from(index)] = pin_char::<D>(device, list, index + 1);
    }
    Vector { chars }
}
