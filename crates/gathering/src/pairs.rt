//! Which pairs of columns carry pins and cells.

ghost use Rattle.std.specs.Prelude.{◌≡◌, ◌<◌, ℕ, IfSome, get_or, unwrap_or};
ghost use Rattle.gathering.specs.Prelude.{no_pair};
ghost use Rattle.abel_meaning.specs.SoundIds as sound;

use pld_device::{Device, Loaded, pair_of_cell, pair_of_pin};

/// What represents a pair if there isn't one.
const NO_PAIR: u8 = 255;

/// The number of a pair that may be there.
fn number_of(pair: Option<u16>) -> u8
    requires { IfSome pair (λ p. p < 256) }
    ensures { result ≡ unwrap_or pair no_pair }
{
    match pair {
        Some(pair) => pair as u8,
        None => NO_PAIR,
    }
}

/// The pairs of all pins.
pub(crate) fn pairs_of_pins<D: Device>(device: &Loaded<D>) -> [u8; 25]
    ensures { (p : ℕ) → p < 25 → get_or result p no_pair ≡ sound.pair_of_pin D.table p }
{
    let mut pairs = [NO_PAIR; 25];
    for pin in 0..25u8 {
        pairs[pin as usize] = number_of(pair_of_pin::<D>(device, pin));
    }
    pairs
}

/// The pairs of all cells.
pub(crate) fn pairs_of_cells<D: Device>(device: &Loaded<D>) -> [u8; 25]
    ensures { (c : ℕ) → c < 25 → get_or result c no_pair ≡ sound.pair_of_cell D.table c }
{
    let mut pairs = [NO_PAIR; 25];
    for cell in 0..25u8 {
        pairs[cell as usize] = number_of(pair_of_cell::<D>(device, cell));
    }
    pairs
}
