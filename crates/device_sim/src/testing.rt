//! What is found at the pins of a point, against a vector's characters.

ghost use Rattle.std.specs.Prelude.{ℕ, ◌≡◌, ◌==◌, ◌&&◌, ◌+◌, ◌++◌, ◌<◌, ◌≤◌, length, not, IfOk};
ghost use Rattle.device_sim.specs.Prelude.{bits, is_on, levels_of, logic_of, HasPins};
ghost use Rattle.device_sim.specs.VectorRun.{found, if_mismatch, is_tested, vector_mismatches};

use crate::report::Mismatch;
use pld_base::{OutOfMemory, Point, Trace, level_at};
use pld_machine::{Logic, trace};

/// What is found at a pin: `H` driven with 1, `L` driven with 0, `Z` released.
fn found_at(shown: Trace, pin: u8) -> u8
    requires { pin < 32 }
    ensures { result ≡ found (is_on (bits 32 shown.driven) pin) (is_on (bits 32 shown.level) pin) }
{
    match (level_at(shown.driven, pin), level_at(shown.level, pin)) {
        (false, _) => b'Z',
        (true, true) => b'H',
        (true, false) => b'L',
    }
}

/// The levels, with 0 if the others have 1.
fn without(levels: u32, others: u32) -> u32
    ensures { (k : ℕ) → k < 32 → is_on (bits 32 result) k
        ≡ (is_on (bits 32 levels) k && not (is_on (bits 32 others) k)) }
{
    levels & !others
}

/// Whether the character tests its pin and something else is found there.
fn disagrees(shown: Trace, pin: u8, expects: u8) -> bool
    requires { pin < 32 }
    ensures { result ≡ (is_tested expects && not (expects == found
        (is_on (bits 32 shown.driven) pin) (is_on (bits 32 shown.level) pin))) }
{
    match expects {
        // The words are the same at each pin, so that a pin takes one test.
        b'H' => !level_at(shown.driven & shown.level, pin),
        b'L' => !level_at(without(shown.driven, shown.level), pin),
        b'Z' => level_at(shown.driven, pin),
        _ => false,
    }
}

/// Adds a mismatch if the character tests its pin and something else is found there.
fn test_pin(
    list: &mut Vec<Mismatch>,
    shown: Trace,
    vector: u32,
    pin: u8,
    expects: u8,
) -> Result<(), OutOfMemory>
    requires { pin < 32 }
    ensures { IfOk result (λ _. list.new.items ≡ list.old.items ++ if_mismatch
        (record {
          vector = vector;
          pin = pin;
          expects = expects;
          finds = found
              (is_on (bits 32 shown.driven) pin) (is_on (bits 32 shown.level) pin);
        })) }
{
    if disagrees(shown, pin, expects) {
        let finds = found_at(shown, pin);
        list.push(Mismatch {
            vector,
            pin,
            expects,
            finds,
        })?;
    }
    Ok(())
}

/// Adds if the pins of a point disagree with a vector's characters, in order of pins.
pub fn test_pins<L: Logic>(
    list: &mut Vec<Mismatch>,
    logic: &L,
    at: &Point,
    vector: u32,
    chars: &[u8],
) -> Result<(), OutOfMemory>
    requires pins { HasPins (L.meaning logic.now) }
    requires few { length chars.now ≤ 31 }
    ensures { IfOk result (λ _. list.new.items ≡ list.old.items
        ++ vector_mismatches (logic_of (L.meaning logic.now))
        (levels_of at.now) vector 1 chars.now) }
{
    let shown = trace(logic, at);
    for (index, char) in chars.iter().enumerate() {
        test_pin(list, shown, vector, index as u8 + 1, *char)?;
    }
    Ok(())
}
