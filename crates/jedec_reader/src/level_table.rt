//! The level of each fuse that is in a list of levels.

ghost use Rattle.std.specs.Prelude.{◌≡◌, ◌+◌, ◌≤◌, length, IfOk, All};
ghost use Rattle.jedec_reader.specs.FieldFits.{FieldFits};
ghost use Rattle.jedec_reader.specs.LevelTable.{HasPut, levels_said};

use jedec_file::Field;
use pld_device::{Device, Loaded};
use std::alloc::{AllocError, Global};

/// What the fields say of each fuse of the device: the last list counts, None its place in none.
pub fn level_table<D: Device>(
    alloc: Global,
    device: &Loaded<D>,
    fields: &[Field],
) -> Result<Vec<Option<bool>>, AllocError>
    requires { All (FieldFits D.table) fields.now }
    ensures { IfOk result (λ table. table.items ≡ levels_said fields.now D.table.fuses) }
{
    let mut table = vec![in alloc; None; usize::from(device.fuses())]?;
    for field in fields {
        if let Field::Levels(first, levels) = field {
            put_levels(&mut table, usize::from(*first), levels.as_slice());
        }
    }
    Ok(table)
}

/// Puts a list of levels from a first fuse on over what was said before.
fn put_levels(table: &mut [Option<bool>], first: usize, levels: &[bool])
    requires { first + length levels.now ≤ length table.old }
    ensures { HasPut first levels.now table.old table.new }
{
    for (place, level) in levels.iter().enumerate() {
        table[first + place] = Some(*level);
    }
}
