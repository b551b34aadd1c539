//! What bytes say in the binary form.

ghost use Rattle.std.specs.Prelude.{◌≡◌, ◌<◌, IfOk, get_or, length};
ghost use Rattle.fuse_forms.specs.Binary.{IsReadInBinary, binary_len, count_of, fuse_in, fuses_in, is_binary, is_count, level_in, only_listed};
ghost use Rattle.fuse_forms.specs.Prelude.{contents};

use jedec_reader::FuseFile;
use pld_base::{ListOf, OutOfMemory, level_at};
use pld_device::{Device, Fuses, Loaded};
use std::alloc::Global;

/// The byte at a place, 0 past the end. Takes no memory.
fn byte_at(bytes: &[u8], place: usize) -> u32
    ensures value { result ≡ get_or bytes.now place 0 }
    ensures small { result < 256 }
{
    match bytes.get(place) {
        Some(byte) => u32::from(*byte),
        None => 0,
    }
}

/// The number that the last two of the first four bytes say, the highest first. Takes no memory.
pub fn count_of(bytes: &[u8]) -> u16
    ensures { result ≡ count_of bytes.now }
{
    (byte_at(bytes, 3) + 256 * byte_at(bytes, 2)) as u16
}

/// Whether bytes begin as those of the binary form: with a number below 65,536 in four bytes, which is not 0. Takes no memory.
pub fn is_binary(bytes: &[u8]) -> bool
    ensures { result ≡ is_binary bytes.now }
{
    bytes.len() >= 4 && byte_at(bytes, 0) == 0 && byte_at(bytes, 1) == 0 && count_of(bytes) != 0
}

/// How many bytes the form of so many fuses has. Takes no memory.
pub fn binary_len(count: u16) -> usize
    ensures { result ≡ binary_len count }
{
    4 + (usize::from(count) + 7) / 8
}

/// The level of a fuse. Takes no memory.
fn fuse_in(bytes: &[u8], fuse: u16) -> bool
    ensures { result ≡ fuse_in bytes.now fuse }
{
    level_at(byte_at(bytes, 4 + usize::from(fuse / 8)), (fuse % 8) as u8)
}

/// The level of a fuse that is listed, and 0 for another. Takes no memory.
fn level_in(bytes: &[u8], listed: u16, fuse: u16) -> bool
    ensures { result ≡ level_in bytes.now listed fuse }
{
    fuse < listed && fuse_in(bytes, fuse)
}

/// The levels of as many fuses as a device has, of which the first ones are listed and the others are 0.
pub fn binary_fuses(
    alloc: Global,
    bytes: &[u8],
    listed: u16,
    count: u16,
) -> Result<Vec<bool>, OutOfMemory>
    ensures { IfOk result (λ v. v.items ≡ fuses_in bytes.now listed count) }
{
    let mut levels = Vec::with_capacity(alloc, usize::from(count))?;
    for fuse in 0..count {
        levels.push(level_in(bytes, listed, fuse))?;
    }
    Ok(levels)
}

/// What bytes say that begin as the binary form does.
#[derive(Drop)]
pub enum BinaryRead {
    /// A list of fuses.
    File(FuseFile),
    /// The number of fuses is none of the device's.
    WrongCount(u16),
    /// There are so many bytes, and so many belong to the number of fuses.
    WrongLength { read: usize, wanted: usize },
}

/// Whether a number is one of those of the device's fuses. Takes no memory.
fn is_count<D: Device>(device: &Loaded<D>, count: u16) -> bool
    ensures { result ≡ is_count D.table count }
{
    count == device.fuses() || count == device.short()
}

/// The file of so many fuses alone.
fn listed_file<D: Device>(
    alloc: Global,
    device: &Loaded<D>,
    bytes: &[u8],
    listed: u16,
) -> Result<FuseFile, OutOfMemory>
    ensures says { IfOk result
        (λ file. contents D.table file ≡ only_listed D.table bytes.now listed) }
    ensures fuses { IfOk result (λ file. length file.fuses ≡ D.table.fuses) }
{
    let levels = binary_fuses(alloc, bytes, listed, device.fuses())?;
    Ok(FuseFile {
        fuses: Fuses::from_levels(levels),
        listed,
        vectors: ListOf::from_vec(Vec::new(alloc)),
        default_level: false,
    })
}

/// What bytes say of a device that begin as the binary form does.
pub fn binary_file<D: Device>(
    alloc: Global,
    device: &Loaded<D>,
    bytes: &[u8],
) -> Result<BinaryRead, OutOfMemory>
    ensures { IfOk result (IsReadInBinary D.table bytes.now) }
{
    let listed = count_of(bytes);
    if !is_count::<D>(device, listed) {
        return Ok(BinaryRead::WrongCount(listed));
    }
    let (read, wanted) = (bytes.len(), binary_len(listed));
    if read != wanted {
        return Ok(BinaryRead::WrongLength { read, wanted });
    }
    Ok(BinaryRead::File(listed_file::<D>(alloc, device, bytes, listed)?))
}
