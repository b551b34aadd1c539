//! The control fuses that all modes of the GAL16V8 and the GAL20V8 have alike, from the first control fuse on.

ghost use Rattle.std.specs.Prelude.{◌≡◌, ◌<◌, ◌≤◌, None, Some, get_or, slice_get};
ghost use Rattle.devices.specs.Gal16V8Tables.{bit, mode_fuses, switches, xors};
ghost use Rattle.devices.specs.V8Tables.{eight};

use pld_device::FuseBit;

/// Where AC1 of the first cell stands, past the first control fuse.
pub const FIRST_AC1: u16 = 72;

/// Where PTD of the first row stands.
const FIRST_PTD: u16 = 80;

/// Where SYN stands.
pub const SYN: u16 = 144;

/// Where AC0 stands.
pub const AC0: u16 = 145;

/// XOR of a cell, at the level that inverts.
pub fn xor(control: u16, cell: u8) -> Option<FuseBit>
    requires control { control ≤ 2560 }
    requires cell { cell < 8 }
    ensures { result ≡ get_or (xors control) cell None }
{
    Some(FuseBit {
        fuse: control + u16::from(cell),
        level: false,
    })
}

/// PTD of a row, none past the last row.
pub fn switch(control: u16, row: u16) -> Option<u16>
    requires { control ≤ 2560 }
    ensures { result ≡ slice_get (switches control) row }
{
    if row < 64 {
        Some(control + FIRST_PTD + row)
    } else {
        None
    }
}

/// A fuse with its level in every design.
pub fn always(fuse: u16, level: bool) -> Option<FuseBit>
    ensures { result ≡ Some (bit fuse level) }
{
    Some(FuseBit { fuse, level })
}

/// The fuses that say the mode: the complement of AC1 is the cell's truth value, then SYN and AC0.
pub fn mode_fuse(control: u16, syn: bool, ac0: bool, set: &[bool; 8], index: u16) -> Option<FuseBit>
    requires { control ≤ 2560 }
    ensures { result ≡ slice_get (mode_fuses control syn ac0 (eight set.now)) index }
{
    if index < 8 {
        return always(control + FIRST_AC1 + index, !set[usize::from(index)]);
    }
    match index {
        8 => always(control + SYN, syn),
        9 => always(control + AC0, ac0),
        _ => None,
    }
}
