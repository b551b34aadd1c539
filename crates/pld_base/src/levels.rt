//! Levels as the bits of a number, read and set one at a time.

ghost use Rattle.std.specs.Prelude.{◌≡◌, ◌<◌, slice_set};
ghost use Rattle.pld_base.specs.Bits.{bits, is_on};

/// The level at a place, from 0. Takes no memory.
pub fn level_at(levels: u32, place: u8) -> bool
    requires { place < 32 }
    ensures { result ≡ is_on (bits 32 levels) place }
{
    levels >> place & 1 == 1
}

/// The levels with the one at a place set to `on`. Takes no memory.
pub fn with_level(levels: u32, place: u8, on: bool) -> u32
    requires { place < 32 }
    ensures { bits 32 result ≡ slice_set (bits 32 levels) place on }
{
    if on {
        levels | 1 << place
    } else {
        levels & !(1 << place)
    }
}

/// Node values with the one at a place set to `on`. Takes no memory.
pub fn with_value(values: u128, place: u8, on: bool) -> u128
    requires { place < 128 }
    ensures { bits 128 result ≡ slice_set (bits 128 values) place on }
{
    if on {
        values | 1 << place
    } else {
        values & !(1 << place)
    }
}
