//! Test vectors in rising order of their numbers, with their characters at the pins.

ghost use Rattle.std.specs.Prelude.{◌≡◌, ◌≤◌, ◌^◌, length, IfOk, OnOk, All};
ghost use Rattle.jedec_reader.specs.Prelude.{order_of, vectors_of, all_chars};
ghost use Rattle.jedec_reader.specs.Contents.{IsPadded};
ghost use Rattle.jedec_reader.specs.FieldFits.{FieldFits};
ghost use Rattle.jedec_reader.specs.VectorTable.{ArePlaces, AreWithin, IsPlaced, HasPutVector, HasVectors, present};

use crate::pin_order::places;
use jedec_file::Field;
use pld_base::Vector;
use pld_device::{Device, Loaded};
use std::alloc::{AllocError, Global};

/// The test vectors of the fields: the last one of each number, in rising order of the numbers.
pub fn vectors<D: Device>(
    alloc: Global,
    device: &Loaded<D>,
    fields: &[Field],
) -> Result<Vec<Vector>, AllocError>
    requires { All (FieldFits D.table) fields.now }
    ensures chars { IfOk result (λ vectors.
        all_chars D.table vectors.items ≡ vectors_of D.table fields.now) }
    ensures padded { IfOk result (λ vectors. All (IsPadded D.table) vectors.items) }
{
    let places = places::<D>(device, fields);
    let table = vector_table::<D>(alloc, device, fields, &places)?;
    present(alloc, &table)
}

/// The vectors by their numbers, None if a number has none.
fn vector_table<D: Device>(
    alloc: Global,
    device: &Loaded<D>,
    fields: &[Field],
    places: &[u8; 24],
) -> Result<Vec<Option<Vector>>, AllocError>
    requires fits { All (FieldFits D.table) fields.now }
    requires places { ArePlaces (order_of D.table fields.now) places.now }
    ensures vectors { IfOk result (λ table.
        HasVectors D.table (order_of D.table fields.now) fields.now table.items) }
    ensures numbers { IfOk result (λ table. length table.items ≤ 2 ^ 16) }
{
    let mut table = Vec::new(alloc);
    for field in fields {
        if let Field::Vector(number, chars) = field {
            put_vector(&mut table, *number, at_pins(places, chars.as_slice()))?;
        }
    }
    Ok(table)
}

/// Puts a vector in its number's place.
fn put_vector(
    table: &mut Vec<Option<Vector>>,
    number: u16,
    vector: Vector,
) -> Result<(), AllocError>
    requires { length table.old.items ≤ 2 ^ 16 }
    ensures put { OnOk result (HasPutVector number vector table.old.items table.new.items) }
    ensures numbers { OnOk result (length table.new.items ≤ 2 ^ 16) }
{
    let place = usize::from(number);
    while table.len() <= place {
        table.push(None)?;
    }
    table[place] = Some(vector);
    Ok(())
}

/// The vector whose characters are at their pins.
fn at_pins(places: &[u8; 24], chars: &[u8]) -> Vector
    requires few { length chars.now ≤ 24 }
    requires within { AreWithin places.now (length chars.now) }
    ensures { IsPlaced places.now chars.now result }
{
    let mut placed = [b'N'; 24];
    for pin in 0..chars.len() {
        placed[pin] = chars[usize::from(places[pin])];
    }
    Vector { chars: placed }
}

/// The vectors that are there, in order.
fn present(alloc: Global, table: &[Option<Vector>]) -> Result<Vec<Vector>, AllocError>
    ensures { IfOk result (λ vectors. vectors.items ≡ present table.now) }
{
    table.iter().filter_map(|vector| *vector).collect(alloc)
}
