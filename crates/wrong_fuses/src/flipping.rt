//! Fuses of which one is wrong.

ghost use Rattle.std.specs.Prelude.{◌≡◌, ◌<◌, IfOk, length};
ghost use Rattle.wrong_fuses.specs.Faults.{with_wrong};

use pld_base::OutOfMemory;
use pld_device::Fuses;
use std::alloc::Global;

/// The fuses with the other level at one of them.
pub fn with_wrong(alloc: Global, fuses: &Fuses, fuse: u16) -> Result<Fuses, OutOfMemory>
    requires { fuse < length fuses.now }
    ensures { IfOk result (λ wrong. wrong ≡ with_wrong fuses.now fuse) }
{
    let mut levels = fuses.levels().to_vec(alloc)?;
    let index = usize::from(fuse);
    levels[index] = !levels[index];
    Ok(Fuses::from_levels(levels))
}
