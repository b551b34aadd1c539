//! The line of the control fuses, which are past the array.

ghost use Rattle.std.specs.Prelude.{◌≡◌, ◌≤◌, ◌∷◌, [], ◌++◌, length, map, OnOk};
ghost use Rattle.jedec_file.specs.CanonicalFile.{control_line};
ghost use Rattle.jedec_file.specs.ControlLines.{control_levels, past};
ghost use Rattle.pld_device.specs.ControlFuses.{control_fuses, fuses_named};
ghost use Rattle.pld_device.specs.declared.fuse_bit.FuseBit.{FuseBit};

use crate::lines::put_levels_line;
use pld_base::OutOfMemory;
use pld_device::{Device, FuseBit, Loaded};

/// The number after a fuse, 0 without one. Takes no memory.
fn past_bit(bit: Option<FuseBit>) -> usize
    ensures { result ≡ past (fuses_named (bit ∷ [])) }
{
    match bit {
        Some(bit) => usize::from(bit.fuse) + 1,
        None => 0,
    }
}

/// The number after the last fuse of a polarity. Takes no memory.
fn past_inverted<D: Device>(device: &Loaded<D>) -> usize
    ensures { result ≡ past (fuses_named D.table.inverted) }
{
    let mut end = 0;
    for cell in 0..device.cells() {
        end = end.max(past_bit(device.inverted_at(cell)));
    }
    end
}

/// The number after the last fuse of a kind. Takes no memory.
fn past_registered<D: Device>(device: &Loaded<D>) -> usize
    ensures { result ≡ past (fuses_named D.table.registered) }
{
    let mut end = 0;
    for cell in 0..device.cells() {
        end = end.max(past_bit(device.registered_at(cell)));
    }
    end
}

/// The number after the last fuse that switches a row. Takes no memory.
fn past_switches<D: Device>(device: &Loaded<D>) -> usize
    ensures { result ≡ past D.table.row_switches }
{
    let mut end = 0;
    for row in 0..device.rows() {
        if let Some(fuse) = device.row_switch(row) {
            end = end.max(usize::from(fuse) + 1);
        }
    }
    end
}

/// The number after the last fuse of a fixed level. Takes no memory.
fn past_fixed<D: Device>(device: &Loaded<D>) -> usize
    ensures { result ≡ past (map (λ (bit : FuseBit). bit.fuse) D.table.fixed) }
{
    let mut end = 0;
    for index in 0..16 {
        end = end.max(past_bit(device.fixed(index)));
    }
    end
}

/// The number after the last control fuse, 0 without one. Takes no memory.
fn control_end<D: Device>(device: &Loaded<D>) -> usize
    ensures last { result ≡ past (control_fuses D.table) }
    ensures inside { result ≤ D.table.fuses }
{
    past_inverted::<D>(device)
        .max(past_registered::<D>(device))
        .max(past_switches::<D>(device))
        .max(past_fixed::<D>(device))
}

/// The levels past the array, up to the last control fuse. Takes no memory.
fn control_levels<'a, D: Device>(device: &Loaded<D>, levels: &'a [bool]) -> &'a [bool]
    requires { length levels.now ≡ D.table.fuses }
    ensures { result.now ≡ control_levels D.table levels.now }
{
    let first = usize::from(device.columns() * device.rows());
    let end = control_end::<D>(device);
    if first < end {
        &levels[first..end]
    } else {
        &[]
    }
}

/// The line of the control fuses, if one of these levels is 1.
pub fn put_control<D: Device>(
    device: &Loaded<D>,
    out: &mut Vec<u8>,
    levels: &[bool],
) -> Result<(), OutOfMemory>
    requires { length levels.now ≡ D.table.fuses }
    ensures { OnOk result (out.new.items ≡ out.old.items ++ control_line D.table levels.now) }
{
    put_levels_line(
        out,
        device.columns() * device.rows(),
        control_levels::<D>(device, levels),
    )
}
