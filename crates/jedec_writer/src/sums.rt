//! The sum of a device's fuses.

ghost use Rattle.std.specs.Prelude.{◌≡◌};
ghost use Rattle.jedec_file.specs.FuseSums.{fuse_sum_of};

use pld_device::Fuses;

/// The fuse sum: fuse n is worth 2 to the power n mod 8, modulo 65,536 (JESD3-C, fuse checksum field).
/// Takes no memory.
pub fn fuse_sum(fuses: &Fuses) -> u16
    ensures { result ≡ fuse_sum_of fuses.now }
{
    jedec_file::fuse_sum(fuses.levels())
}
