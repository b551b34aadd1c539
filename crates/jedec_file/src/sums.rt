//! The sums of a fuse file: of its fuses, and of its bytes.

ghost use Rattle.std.specs.Prelude.{◌≡◌, ◌%◌, ◌^◌, sum};
ghost use Rattle.jedec_file.specs.FuseSums.{fuse_sum_of};

/// The fuse sum: fuse n is worth 2 to the power n mod 8, modulo 65,536 (JESD3-C, fuse checksum field).
/// Takes no memory.
pub fn fuse_sum(levels: &[bool]) -> u16
    ensures { result ≡ fuse_sum_of levels.now }
{
    let mut total = 0u16;
    for (place, level) in levels.iter().enumerate() {
        if *level {
            total = total.wrapping_add(1 << (place % 8));
        }
    }
    total
}

/// The sum of the bytes, modulo 65,536 (JESD3-C, transmission checksum). Takes no memory.
pub fn byte_sum(bytes: &[u8]) -> u16
    ensures { result ≡ sum bytes.now % 2 ^ 16 }
{
    let mut total = 0u16;
    for byte in bytes {
        total = total.wrapping_add(u16::from(*byte));
    }
    total
}
