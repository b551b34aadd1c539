//! What all fields of a fuse file say together.

ghost use Rattle.std.specs.Prelude.{◌≡◌, ◌≤◌, length, IfOk, All};
ghost use Rattle.jedec_reader.specs.Prelude.{contents_of, size_of, sum_agrees, ends_by, is_pin_count, list_all, Gives};
ghost use Rattle.jedec_file.specs.FuseSums.{fuse_sum_of};
ghost use Rattle.jedec_reader.specs.Contents.{IsPadded, contents};
ghost use Rattle.jedec_reader.specs.FieldFits.{FieldFits};
ghost use Rattle.jedec_reader.specs.SaidBy.{IsSaidBy, size_fits};

use crate::fuse_file::FuseFile;
use crate::fuse_levels::{default_level, fuse_levels};
use crate::level_table::level_table;
use crate::said::Said;
use crate::vectors::vectors;
use jedec_file::{Field, JedecFault, fuse_sum};
use pld_base::ListOf;
use pld_device::{Device, Fuses, Loaded};
use std::alloc::Global;

/// What these fields say, or why they are no fuse file's.
pub fn contents<D: Device>(
    alloc: Global,
    device: &Loaded<D>,
    fields: &[Field],
) -> Result<FuseFile, JedecFault>
    requires { All (FieldFits D.table) fields.now }
    ensures file { Gives (contents D.table) result (contents_of D.table fields.now) }
    ensures fuses { IfOk result (λ file. length file.fuses ≡ D.table.fuses) }
    ensures padded { IfOk result (λ file. All (IsPadded D.table) file.vectors) }
{
    let said = Said::by(fields);
    let listed = listed::<D>(device, &said, fields)?;
    let table = level_table::<D>(alloc, device, fields)?;
    let count = usize::from(listed);
    let default = default_level(said.default_fuse, table.as_slice().split_at(count).0)?;
    let levels = fuse_levels(alloc, &table, listed, default)?;
    check_fuse_sum(said.fuse_sum, levels.as_slice().split_at(count).0)?;
    let vectors = vectors::<D>(alloc, device, fields)?;
    Ok(FuseFile {
        fuses: Fuses::from_levels(levels),
        listed,
        vectors: ListOf::from_vec(vectors),
        default_level: said.default_test.unwrap_or(false),
    })
}

/// The number of fuses that the file lists, one of the device's.
fn listed<D: Device>(device: &Loaded<D>, said: &Said, fields: &[Field]) -> Result<u16, JedecFault>
    requires { IsSaidBy fields.now said.now }
    ensures size { Gives (λ count. count) result (size_of D.table fields.now) }
    ensures few { IfOk result (λ count. count ≤ D.table.fuses) }
{
    match said.fuse_count {
        Some(count) if is_size::<D>(device, said.pin_count, fields, count) => Ok(count),
        _ => Err(JedecFault::WrongSize),
    }
}

/// The number of fuses is one of the device's, the number of pins is the device's, and no level is
/// past the fuses.
fn is_size<D: Device>(device: &Loaded<D>, pins: Option<u16>, fields: &[Field], count: u16) -> bool
    ensures { result ≡ size_fits D.table pins fields.now count }
{
    (count == device.fuses() || count == device.short())
        && is_pin_count::<D>(device, pins)
        && all_end_by(fields, count)
}

/// The number of pins, if it is said, is the device's.
fn is_pin_count<D: Device>(device: &Loaded<D>, pins: Option<u16>) -> bool
    ensures { result ≡ is_pin_count D.table pins }
{
    match pins {
        Some(count) => count == u16::from(device.pins()),
        None => true,
    }
}

/// No field has a level past so many fuses.
fn all_end_by(fields: &[Field], count: u16) -> bool
    ensures { result ≡ list_all (ends_by count) fields.now }
{
    for field in fields {
        if !ends_by(field, count) {
            return false;
        }
    }
    true
}

/// The field has no level past so many fuses.
fn ends_by(field: &Field, count: u16) -> bool
    ensures { result ≡ ends_by count field.now }
{
    match field {
        Field::Levels(first, levels) => {
            usize::from(*first) + levels.as_slice().len() <= usize::from(count)
        }
        _ => true,
    }
}

/// The fuse sum that was read, if any, is that of the levels.
fn check_fuse_sum(said: Option<u16>, levels: &[bool]) -> Result<u16, JedecFault>
    ensures { Gives (λ sum. sum) result (sum_agrees said (fuse_sum_of levels.now)) }
{
    let found = fuse_sum(levels);
    match said {
        Some(read) if read != found => Err(JedecFault::FuseSum { read, found }),
        _ => Ok(found),
    }
}
