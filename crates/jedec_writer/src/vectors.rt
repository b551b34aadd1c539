//! The lines that test vectors bring with them.

ghost use Rattle.std.specs.Prelude.{◌≡◌, ◌≤◌, ◌<◌, ◌∷◌, ◌++◌, length, All, OnOk, codes};
ghost use Rattle.std.specs.Fmt.{decimal};
ghost use Rattle.jedec_file.specs.CanonicalFile.{line_with, vector_lines};
ghost use Rattle.jedec_file.specs.FileText.{four_digits, line, space};
ghost use Rattle.jedec_file.specs.TestVectors.{all_chars, chars_of};
ghost use Rattle.jedec_writer.specs.Places.{HasPlaces};

use crate::lines::{put_counted, put_end};
use pld_base::{OutOfMemory, Vector, put_four_digits};
use pld_device::{Device, Loaded};
use std::alloc::Global;

/// The number of vectors, if there are any.
pub fn put_vector_count<D: Device>(
    alloc: Global,
    out: &mut Vec<u8>,
    vectors: &[Vector],
) -> Result<(), OutOfMemory>
    ensures { OnOk result (out.new.items ≡ out.old.items
        ++ line_with (all_chars D.table vectors.now)
        (codes "QV" ++ decimal (length (all_chars D.table vectors.now)))) }
{
    if !vectors.is_empty() {
        put_counted(alloc, out, b"QV", vectors.len())?;
    }
    Ok(())
}

/// The level of pins that no vector drives, if there are vectors.
pub fn put_default_test<D: Device>(out: &mut Vec<u8>, vectors: &[Vector]) -> Result<(), OutOfMemory>
    ensures { OnOk result (out.new.items
        ≡ out.old.items ++ line_with (all_chars D.table vectors.now) (codes "X0")) }
{
    if !vectors.is_empty() {
        out.extend_from_slice(b"X0*\r\n")?;
    }
    Ok(())
}

/// The line of a vector.
fn put_vector<D: Device>(
    device: &Loaded<D>,
    out: &mut Vec<u8>,
    number: u16,
    vector: &Vector,
) -> Result<(), OutOfMemory>
    ensures line { OnOk result (out.new.items ≡ out.old.items
        ++ line (codes "V" ++ four_digits number ++ space ∷ chars_of D.table vector.now)) }
    // What its type says, for the proof that the file is read back.
    ensures places { HasPlaces vector.now }
{
    out.push(b'V')?;
    put_four_digits(out, number)?;
    out.push(b' ')?;
    out.extend_from_slice(&vector.chars[..usize::from(device.pins())])?;
    put_end(out)
}

/// The lines of all vectors, with numbers from 1.
pub fn put_vectors<D: Device>(
    device: &Loaded<D>,
    out: &mut Vec<u8>,
    vectors: &[Vector],
) -> Result<(), OutOfMemory>
    requires { length vectors.now ≤ 9999 }
    ensures lines { OnOk result (out.new.items
        ≡ out.old.items ++ vector_lines 1 (all_chars D.table vectors.now)) }
    ensures places { OnOk result (All HasPlaces vectors.now) }
{
    for (index, vector) in vectors.iter().enumerate() {
        put_vector::<D>(device, out, index as u16 + 1, vector)?;
    }
    Ok(())
}
