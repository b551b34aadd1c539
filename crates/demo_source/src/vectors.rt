//! The test vectors: drawn inputs, and the levels that the machine shows after a pulse of its clock.

ghost use Rattle.std.specs.Prelude.{◌≡◌, ◌≤◌, ◌∷◌, ◌++◌, List, [], length, ℕ, IfOk, OnOk, None, option_map};
ghost use Rattle.pld_base.specs.Bits.{bits};
ghost use Rattle.pld_base.specs.Points.{levels_of};
ghost use Rattle.pld_machine.specs.Lookups.{logic_of};
ghost use Rattle.demo_source.specs.Drawing.{inputs_drawn, many, state_after};
ghost use Rattle.demo_source.specs.Machine.{machine, outside};
ghost use Rattle.demo_source.specs.Pulses.{AreLines, Comes, IsPulsed};
ghost use Rattle.demo_source.specs.SourceText.{digit, further_text, shown_text, stimulus_text, vector_text};

use crate::draws::Draws;
use crate::literals::{FIRST_INPUT, INPUTS};
use crate::machine::{CLOCK, FIRST_REGISTER, Machine, REGISTERS};
use pld_base::{OutOfMemory, Point, level_at, with_level};
use pld_machine::{rest, step};
use std::alloc::Global;

/// The number of test vectors.
const VECTORS: u32 = 1000;

/// Ten levels of inputs.
fn draw_inputs(alloc: Global, draws: &mut Draws) -> Result<Vec<bool>, OutOfMemory>
    ensures inputs { IfOk result (λ inputs. inputs.items ≡ inputs_drawn draws.old.state) }
    ensures moved { OnOk result (draws.new.state ≡ state_after 10 draws.old.state) }
{
    let mut inputs = Vec::new(alloc);
    for _ in 0..INPUTS {
        inputs.push(draws.coin())?;
    }
    Ok(inputs)
}

/// The outside levels, bit p for pin p, of these inputs with the clock at a level. Takes no memory.
fn outside_of(clock: bool, inputs: &[bool]) -> u32
    requires { length inputs.now ≤ 30 }
    ensures { bits 32 result ≡ outside clock inputs.now }
{
    let mut levels = with_level(0, CLOCK, clock);
    for (index, input) in inputs.iter().enumerate() {
        levels = with_level(levels, FIRST_INPUT + index as u8, *input);
    }
    levels
}

/// The next point: after a step, or at rest from power-up if there isn't one before.
fn point_after(of: &Machine, before: Option<Point>, outside: u32) -> Point
    ensures { Comes (logic_of (machine of.now.equations.now)) (option_map levels_of before)
        (bits 32 outside) (levels_of result) }
{
    match before {
        None => rest(of, outside, 0),
        Some(at) => step(of, &at, outside),
    }
}

/// The point after a pulse of the clock at these inputs. Takes no memory.
fn pulsed(of: &Machine, before: Option<Point>, inputs: &[bool]) -> Point
    requires { length inputs.now ≤ 30 }
    ensures { IsPulsed (logic_of (machine of.now.equations.now)) (option_map levels_of before)
        inputs.now (levels_of result) }
{
    let low = outside_of(false, inputs);
    let first = point_after(of, before, low);
    let turned = point_after(of, Some(first), outside_of(true, inputs));
    point_after(of, Some(turned), low)
}

/// Appends a level.
fn put_level(out: &mut Vec<u8>, level: bool) -> Result<(), OutOfMemory>
    ensures { OnOk result (out.new.items ≡ out.old.items ++ digit level ∷ []) }
{
    out.push(if level { b'1' } else { b'0' })?;
    Ok(())
}

/// Appends a level after a comma.
fn put_further_level(out: &mut Vec<u8>, level: bool) -> Result<(), OutOfMemory>
    ensures { OnOk result (out.new.items ≡ out.old.items ++ further_text level) }
{
    out.push(b',')?;
    put_level(out, level)
}

/// Appends a pulse of the clock and the inputs.
fn put_stimulus(out: &mut Vec<u8>, inputs: &[bool]) -> Result<(), OutOfMemory>
    ensures { OnOk result (out.new.items ≡ out.old.items ++ stimulus_text inputs.now) }
{
    out.extend_from_slice(b"[.C.")?;
    for input in inputs {
        put_further_level(out, *input)?;
    }
    out.push(b']')?;
    Ok(())
}

/// Appends the levels of the registers.
fn put_shown(out: &mut Vec<u8>, at: &Point) -> Result<(), OutOfMemory>
    ensures { OnOk result (out.new.items ≡ out.old.items ++ shown_text (levels_of at.now)) }
{
    out.push(b'[')?;
    put_level(out, level_at(at.pins, FIRST_REGISTER))?;
    for register in 1..REGISTERS {
        put_further_level(out, level_at(at.pins, FIRST_REGISTER - register))?;
    }
    out.push(b']')?;
    Ok(())
}

/// Appends a vector's line.
fn put_vector(out: &mut Vec<u8>, inputs: &[bool], at: &Point) -> Result<(), OutOfMemory>
    ensures { OnOk result (out.new.items ≡ out.old.items ++ vector_text inputs.now (levels_of at.now)) }
{
    put_stimulus(out, inputs)?;
    out.extend_from_slice(b" -> ")?;
    put_shown(out, at)?;
    out.extend_from_slice(b";\n")?;
    Ok(())
}

/// Appends a thousand vectors with the levels that the machine shows, from power-up on.
pub fn put_vectors(
    alloc: Global,
    out: &mut Vec<u8>,
    of: &Machine,
    draws: &mut Draws,
) -> Result<(), OutOfMemory>
    ensures { OnOk result ((lines : List ℕ) × (out.new.items ≡ out.old.items ++ lines)
        × AreLines (logic_of (machine of.now.equations.now)) None
        (many inputs_drawn 10 1000 draws.old.state) lines) }
{
    let mut before = None;
    for _ in 0..VECTORS {
        let inputs = draw_inputs(alloc, draws)?;
        let at = pulsed(of, before, &inputs);
        put_vector(out, &inputs, &at)?;
        before = Some(at);
    }
    Ok(())
}
