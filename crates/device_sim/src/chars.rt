//! The characters of test vectors (JESD3-C, test vector field).

ghost use Rattle.std.specs.Prelude.{◌≡◌, ◌<◌, ◌≤◌, ◌^◌, codes, length, position};
ghost use Rattle.device_sim.specs.Prelude.{list_any, is_among};
ghost use Rattle.device_sim.specs.Simulated.{first_unsupported, is_unsupported};
ghost use Rattle.device_sim.specs.VectorRun.{has_clock};
ghost use Rattle.device_sim.specs.VectorSteps.{all_chars_at, chars_at, level_for};

use pld_base::Vector;

/// The characters of a vector at pins 1 to the last one; what follows counts for nothing.
pub fn chars_of(vector: &Vector, pins: u8) -> &[u8]
    requires { pins ≤ 24 }
    ensures { result.now ≡ chars_at pins vector.now }
{
    vector.chars.split_at(usize::from(pins)).0
}

/// A pin's outside level: 0 and C drive 0, 1 and K drive 1, but C drives 1 and K drives 0 while the
/// clocks are turned; every other character leaves the default level.
pub fn level_of(char: u8, turned: bool, default: bool) -> bool
    ensures { result ≡ level_for turned default char }
{
    match char {
        b'0' => false,
        b'1' => true,
        b'C' => turned,
        b'K' => !turned,
        _ => default,
    }
}

/// Whether the character is a clock.
fn is_clock(char: u8) -> bool
    ensures { result ≡ is_among (codes "CK") char }
{
    matches!(char, b'C' | b'K')
}

/// Whether some pin has a clock.
pub fn has_clock(chars: &[u8]) -> bool
    ensures { result ≡ has_clock chars.now }
{
    chars.iter().any(|char| is_clock(*char))
}

/// Whether the character is one that is not simulated: super voltages, buried preload, preload and
/// fast edges.
fn is_unsupported(char: u8) -> bool
    ensures { result ≡ is_unsupported char }
{
    // Most characters are 0 or 1, and one test distinguishes them.
    char > b'1' && matches!(char, b'2'..=b'9' | b'B' | b'P' | b'U' | b'D')
}

/// The place of the first character that is not simulated.
fn first_place(chars: &[u8]) -> Option<usize>
    ensures { result ≡ position is_unsupported chars.now }
{
    chars.iter().position(|char| is_unsupported(*char))
}

/// The first character that is not simulated: its vector and its pin, both from 1. Takes no memory.
pub fn first_unsupported(vectors: &[Vector], pins: u8) -> Option<(u32, u8)>
    requires pins { pins ≤ 24 }
    requires few { length vectors.now < 2 ^ 32 }
    ensures { result ≡ first_unsupported 1 (all_chars_at pins vectors.now) }
{
    for (index, vector) in vectors.iter().enumerate() {
        if let Some(place) = first_place(chars_of(vector, pins)) {
            return Some((index as u32 + 1, place as u8 + 1));
        }
    }
    None
}
