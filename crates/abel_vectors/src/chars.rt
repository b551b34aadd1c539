//! The characters that marks give.

ghost use Rattle.std.specs.Prelude.{◌≡◌};
ghost use Rattle.abel_vectors.specs.Prelude.{view_mark};
ghost use Rattle.pld_device.specs.Macrocells.{complement_if};
ghost use Rattle.abel_meaning.specs.Vectors as meant;
ghost use Rattle.abel_vectors.specs.{char_in};

use truth_tables::Mark;

/// Whether positions are driven, as inputs, or tested, as outputs.
#[derive(Clone, Copy, PartialEq, Eq)]
pub(crate) enum Role {
    Driven,
    Tested,
}

/// The character of a level of a name at its pin, which has the other level at which the name is its
/// complement.
fn level_char(negated: bool, on: bool, low: u8, high: u8) -> u8
    ensures { result ≡ meant.char_by (complement_if negated on) low high }
{
    let level = if negated { !on } else { on };
    if level { high } else { low }
}

/// The character that a mark gives to a pin whose name is its complement or not; None if it gives none.
pub(crate) fn role_char(role: Role, negated: bool, mark: Mark) -> Option<u8>
    ensures { result ≡ char_in role negated (view_mark mark) }
{
    match (role, mark) {
        (Role::Driven, Mark::Level(on)) => Some(level_char(negated, on, b'0', b'1')),
        (Role::Driven, Mark::Pulsed) => Some(if negated { b'K' } else { b'C' }),
        (Role::Tested, Mark::Level(on)) => Some(level_char(negated, on, b'L', b'H')),
        (Role::Tested, Mark::Released) => Some(b'Z'),
        _ => None,
    }
}
