//! Fuses that have another level than the one that the device fixes.

ghost use Rattle.std.specs.Prelude.{◌≡◌, ◌<◌, ◌↔◌, None, Some, not, length};
ghost use Rattle.pld_device.specs.FixedFuses.{HasFixedLevels, wrong_fixed};
ghost use Rattle.pld_device.specs.Registers.{says};

use crate::device::Device;
use crate::fuse_bit::FuseBit;
use crate::fuses::Fuses;
use crate::loaded::Loaded;

/// How many fuses have a fixed level at most.
const FIXED: u16 = 16;

/// Whether the fuse of a fixed level has the other one. Takes no memory.
fn is_wrong(levels: &[bool], bit: FuseBit) -> bool
    requires { bit.fuse < length levels.now }
    ensures { result ≡ not (says levels.now (Some bit)) }
{
    levels[usize::from(bit.fuse)] != bit.level
}

/// The first fuse, in the order of `Loaded::fixed`, whose level is not the one that the device fixes. Takes no memory.
pub fn wrong_fuse<D: Device>(device: &Loaded<D>, fuses: &Fuses) -> Option<u16>
    requires { length fuses.now ≡ D.table.fuses }
    ensures first { result ≡ wrong_fixed fuses.now D.table.fixed }
    ensures none { (result ≡ None) ↔ HasFixedLevels D.table fuses.now }
{
    for index in 0..FIXED {
        let Some(bit) = device.fixed(index) else {
            return None;
        };
        if is_wrong(fuses.levels(), bit) {
            return Some(bit.fuse);
        }
    }
    None
}
