//! The outside levels of a vector.

ghost use Rattle.std.specs.Prelude.{◌≡◌, ◌<◌, ◌≤◌, false, length, slice_set, true};
ghost use Rattle.device_sim.specs.Prelude.{bits};
ghost use Rattle.device_sim.specs.VectorRun.{at_pins};
ghost use Rattle.device_sim.specs.VectorSteps.{level_for};

use crate::chars::level_of;

/// The levels, with 1 at a place if it is on.
fn with_one(levels: u32, place: u8, on: bool) -> u32
    requires { place < 32 }
    ensures on { on ≡ true → bits 32 result ≡ slice_set (bits 32 levels) place true }
    ensures off { on ≡ false → result ≡ levels }
{
    if on {
        pld_base::with_level(levels, place, true)
    } else {
        levels
    }
}

/// The outside levels of a vector, bit p for pin p, while its clocks are turned or not.
pub fn outside_of(chars: &[u8], turned: bool, default: bool) -> u32
    requires { length chars.now ≤ 31 }
    ensures { bits 32 result ≡ at_pins (level_for turned default) chars.now }
{
    let mut levels = 0;
    for (index, char) in chars.iter().enumerate() {
        let on = level_of(*char, turned, default);
        levels = with_one(levels, index as u8 + 1, on);
    }
    levels
}
