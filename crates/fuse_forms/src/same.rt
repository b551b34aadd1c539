//! Whether two fuse files say the same.

ghost use Rattle.std.specs.Prelude.{true, ◌≡◌};
ghost use Rattle.jedec_reader.specs.Contents.{contents};
ghost use Rattle.pld_device.specs.Table.{Table};

use jedec_reader::FuseFile;
use pld_base::Vector;

/// Whether two lists of levels are the same. Takes no memory.
pub fn are_same(one: &[bool], other: &[bool]) -> bool
    ensures { result ≡ true → one.now ≡ other.now }
{
    one == other
}

/// Whether two lists of vectors are the same. Takes no memory.
fn are_same_vectors(one: &[Vector], other: &[Vector]) -> bool
    ensures { result ≡ true → one.now ≡ other.now }
{
    one == other
}

/// Whether two files say the same. Takes no memory.
pub fn is_same_file(one: &FuseFile, other: &FuseFile) -> bool
    ensures { result ≡ true → (t : Table) → contents t one.now ≡ contents t other.now }
{
    are_same(one.fuses.levels(), other.fuses.levels())
        && one.listed == other.listed
        && are_same_vectors(one.vectors.as_slice(), other.vectors.as_slice())
        && one.default_level == other.default_level
}
