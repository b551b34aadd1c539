//! The points of a vector as vectors of their own.

ghost use Rattle.std.specs.Prelude.{◌≡◌, ◌≤◌, ◌++◌, IfOk, OnOk, codes, flat_map, map, take};
ghost use Rattle.device_sim.specs.VectorRun.{has_clock};
ghost use Rattle.jedec_file.specs.TestVectors.{all_chars, chars_of};
ghost use Rattle.jedec_file.specs.Fields.{is_among};
ghost use Rattle.page_model.specs.Phases.{phase_char, phases};

use pld_base::{OutOfMemory, Vector};
use pld_device::{Device, Loaded};
use std::alloc::Global;

/// A character while the clocks are turned, or not.
fn phase_char(turned: bool, char: u8) -> u8
    ensures { result ≡ phase_char turned char }
{
    match (char, turned) {
        (b'C', false) | (b'K', true) => b'0',
        (b'C', true) | (b'K', false) => b'1',
        _ => char,
    }
}

/// Changes characters to those while the clocks are turned, or not.
fn turn_chars(turned: bool, chars: &mut [u8])
    ensures { chars.new ≡ map (phase_char turned) chars.old }
{
    for place in 0..chars.len() {
        chars[place] = phase_char(turned, chars[place]);
    }
}

/// A vector while its clocks are turned, or not.
fn phase(turned: bool, vector: &Vector) -> Vector
    ensures { result.chars ≡ map (phase_char turned) vector.now.chars }
{
    let mut chars = vector.chars;
    turn_chars(turned, &mut chars);
    Vector { chars }
}

/// Whether a character is a clock.
fn is_clock(char: u8) -> bool
    ensures { result ≡ is_among (codes "CK") char }
{
    matches!(char, b'C' | b'K')
}

/// Whether some pin of a device has a clock in a vector. Takes no memory.
pub fn has_clock<D: Device>(device: &Loaded<D>, vector: &Vector) -> bool
    ensures { result ≡ has_clock (chars_of D.table vector.now) }
{
    let (chars, _) = vector.chars.split_at(usize::from(device.pins()));
    chars.iter().any(|char| is_clock(*char))
}

/// Adds the points of a vector.
fn add_phases<D: Device>(
    device: &Loaded<D>,
    list: &mut Vec<Vector>,
    vector: &Vector,
) -> Result<(), OutOfMemory>
    ensures { OnOk result (all_chars D.table list.new.items
        ≡ all_chars D.table list.old.items ++ phases (chars_of D.table vector.now)) }
{
    if has_clock::<D>(device, vector) {
        list.push(phase(false, vector))?;
        list.push(phase(true, vector))?;
        list.push(phase(false, vector))?;
    } else {
        list.push(*vector)?;
    }
    Ok(())
}

/// The points of vectors, one after the other.
pub fn phases_of<D: Device>(
    alloc: Global,
    device: &Loaded<D>,
    vectors: &[Vector],
) -> Result<Vec<Vector>, OutOfMemory>
    ensures { IfOk result (λ list. all_chars D.table list.items ≡ flat_map phases (all_chars D.table vectors.now)) }
{
    let mut list = Vec::new(alloc);
    for vector in vectors {
        add_phases::<D>(device, &mut list, vector)?;
    }
    Ok(list)
}
