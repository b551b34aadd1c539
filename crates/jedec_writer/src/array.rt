//! The lines of the array's rows.

ghost use Rattle.std.specs.Prelude.{◌≡◌, ◌++◌, length, OnOk};
ghost use Rattle.jedec_file.specs.CanonicalFile.{row_lines};

use crate::lines::put_levels_line;
use pld_base::OutOfMemory;
use pld_device::{Device, Loaded};

/// The lines of all rows, of which those without an opened fuse have none.
pub fn put_rows<D: Device>(
    device: &Loaded<D>,
    out: &mut Vec<u8>,
    levels: &[bool],
) -> Result<(), OutOfMemory>
    requires { length levels.now ≡ D.table.fuses }
    ensures { OnOk result (out.new.items
        ≡ out.old.items ++ row_lines D.table.columns levels.now D.table.rows) }
{
    for row in 0..device.rows() {
        let first = device.columns() * row;
        let past = first + device.columns();
        put_levels_line(out, first, &levels[usize::from(first)..usize::from(past)])?;
    }
    Ok(())
}
