//! The control fuses of the other device, past its array.

ghost use Rattle.std.specs.Prelude.{◌≡◌, ◌<◌, ℕ, None, Some, [], List, Bool, length};
ghost use Rattle.fuse_porting.specs.Prelude.{Inverts, IsFixed, Switches, fuse_for};
ghost use Rattle.fuse_porting.specs.Controls.{IsControlLevel, IsFoundFor, told_by, wanted_level};

use pld_device::{Device, FuseBit, Loaded};

/// The level by which a control fuse says what is reported; None if it is another fuse, or there isn't one.
fn told(bit: Option<FuseBit>, fuse: u16, told: bool) -> Option<bool>
    ensures { result ≡ told_by bit fuse told }
{
    match bit {
        Some(found) if found.fuse == fuse => Some(if found.level { told } else { !told }),
        _ => None,
    }
}

/// The level of the fuse if it is a cell's polarity.
fn cell_level<T: Device>(device: &Loaded<T>, polarities: &[bool], fuse: u16) -> Option<bool>
    requires { length polarities.now ≡ length T.table.cells }
    ensures found { IsFoundFor T.table (wanted_level T.table polarities.now) fuse result }
    ensures none { result ≡ None → (c : ℕ) → c < length T.table.cells → fuse_for T.table (Inverts c) ≡ Some fuse → ⊥ }
{
    for index in 0..device.cells() {
        let level = told(
            device.inverted_at(index),
            fuse,
            polarities[usize::from(index)],
        );
        if level.is_some() {
            return level;
        }
    }
    None
}

/// The level of the fuse if it switches a row on, as every row is.
fn switch_level<T: Device>(device: &Loaded<T>, fuse: u16) -> Option<bool>
    ensures found { (ps : List Bool) → IsFoundFor T.table (wanted_level T.table ps) fuse result }
    ensures none { result ≡ None → (row : ℕ) → row < T.table.rows → fuse_for T.table (Switches row) ≡ Some fuse → ⊥ }
{
    for row in 0..device.rows() {
        if device.row_switch(row) == Some(fuse) {
            return Some(true);
        }
    }
    None
}

/// How many fuses have a fixed level at most.
const FIXED: u16 = 16;

/// The level of the fuse if it is fixed.
fn fixed_level<T: Device>(device: &Loaded<T>, fuse: u16) -> Option<bool>
    ensures found { (ps : List Bool) → IsFoundFor T.table (wanted_level T.table ps) fuse result }
    ensures none { result ≡ None → (index : ℕ) → index < 16 → fuse_for T.table (IsFixed index) ≡ Some fuse → ⊥ }
{
    for index in 0..FIXED {
        let level = told(device.fixed(index), fuse, true);
        if level.is_some() {
            return level;
        }
    }
    None
}

/// The level of a fuse past the array.
pub(crate) fn control_level<T: Device>(device: &Loaded<T>, polarities: &[bool], fuse: u16) -> bool
    requires size { length polarities.now ≡ length T.table.cells }
    requires kinds { T.table.registered ≡ [] }
    ensures { IsControlLevel T.table polarities.now fuse result }
{
    if let Some(level) = cell_level::<T>(device, polarities, fuse) {
        return level;
    }
    if let Some(level) = switch_level::<T>(device, fuse) {
        return level;
    }
    fixed_level::<T>(device, fuse).unwrap_or(false)
}
