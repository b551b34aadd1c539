//! The run that test vectors drive, over any logic.

ghost use Rattle.std.specs.Prelude.{◌≡◌, ◌<◌, ◌≤◌, ◌^◌, length, IfOk, Some, None, option_map};
ghost use Rattle.device_sim.specs.Prelude.{list_any, range_with_len, bits, levels_of, IsOrdered};
ghost use Rattle.device_sim.specs.VectorRun.{outsides_of};
ghost use Rattle.device_sim.specs.VectorSteps.{all_chars_at, last_after, mismatches_after, point_after};

use crate::chars::{chars_of, has_clock};
use crate::outside::outside_of;
use crate::report::Mismatch;
use crate::testing::test_pins;
use pld_base::{OutOfMemory, Point, Vector};
use pld_machine::{Logic, rest, step};
use std::alloc::Global;

/// Whether some cell is a register.
pub fn has_register<L: Logic>(logic: &L) -> bool
    ensures { result ≡ list_any (L.meaning logic.now).stores
        (range_with_len 0 (L.meaning logic.now).cells) }
{
    for cell in 0..logic.cells() {
        if logic.stores(cell) {
            return true;
        }
    }
    false
}

/// The next point: after a step, or at rest from power-up if there isn't one before.
#[inline(always)]
fn point_after<L: Logic>(logic: &L, before: Option<Point>, outside: u32) -> Point
    requires { IsOrdered (L.meaning logic.now) }
    ensures { levels_of result
        ≡ point_after (L.meaning logic.now) (option_map levels_of before) (bits 32 outside) }
{
    match before {
        None => rest(logic, outside, 0),
        Some(at) => step(logic, &at, outside),
    }
}

/// The point at which a vector is tested: with a clock, after two further steps.
#[inline(always)]
fn point_in_steps<L: Logic>(logic: &L, before: Option<Point>, chars: &[u8], default: bool) -> Point
    requires ordered { IsOrdered (L.meaning logic.now) }
    requires few { length chars.now ≤ 31 }
    ensures { last_after (L.meaning logic.now) (option_map levels_of before)
        (outsides_of default chars.now) ≡ Some (levels_of result) }
{
    let outside = outside_of(chars, false, default);
    let at = point_after(logic, before, outside);
    if has_clock(chars) {
        let turned = point_after(logic, Some(at), outside_of(chars, true, default));
        point_after(logic, Some(turned), outside)
    } else {
        at
    }
}

/// The point at which a vector is tested, if it is known whether some cell is a register.
///
/// If none is, a step only settles: clocks that are turned and turned back change nothing.
#[inline(always)]
pub fn point_of<L: Logic>(
    logic: &L,
    stores: bool,
    before: Option<Point>,
    chars: &[u8],
    default: bool,
) -> Point
    requires ordered { IsOrdered (L.meaning logic.now) }
    requires stores { stores ≡ list_any (L.meaning logic.now).stores
        (range_with_len 0 (L.meaning logic.now).cells) }
    requires few { length chars.now ≤ 31 }
    ensures { last_after (L.meaning logic.now) (option_map levels_of before)
        (outsides_of default chars.now) ≡ Some (levels_of result) }
{
    if stores {
        point_in_steps(logic, before, chars, default)
    } else {
        rest(logic, outside_of(chars, false, default), 0)
    }
}

/// If the vectors' run disagrees with them, in order of vectors and then pins.
pub fn run_vectors<L: Logic>(
    alloc: Global,
    logic: &L,
    pins: u8,
    default: bool,
    vectors: &[Vector],
) -> Result<Vec<Mismatch>, OutOfMemory>
    requires ordered { IsOrdered (L.meaning logic.now) }
    requires pins { pins ≤ 24 }
    requires few { length vectors.now < 2 ^ 32 }
    ensures { IfOk result (λ list. list.items
        ≡ mismatches_after (L.meaning logic.now) default 1 None (all_chars_at pins vectors.now)) }
{
    let stores = has_register(logic);
    let mut found = Vec::new(alloc);
    let mut before = None;
    for (index, vector) in vectors.iter().enumerate() {
        let chars = chars_of(vector, pins);
        let at = point_of(logic, stores, before, chars, default);
        test_pins(&mut found, logic, &at, index as u32 + 1, chars)?;
        before = Some(at);
    }
    Ok(found)
}
