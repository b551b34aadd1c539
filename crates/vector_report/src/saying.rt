//! Whether a fuse file says what another one says, with these vectors.

ghost use Rattle.std.specs.Prelude.{◌≡◌, true};
ghost use Rattle.vector_report.specs.Saying.{SaysWith};

use jedec_reader::FuseFile;
use pld_base::Vector;

/// Whether the vectors are the same.
fn has_vectors(list: &[Vector], vectors: &[Vector]) -> bool
    ensures { result ≡ true → list.now ≡ vectors.now }
{
    list == vectors
}

/// Whether the fuses have the same levels.
fn has_levels(levels: &[bool], others: &[bool]) -> bool
    ensures { result ≡ true → levels.now ≡ others.now }
{
    levels == others
}

/// Whether a fuse file says what another one says, with these vectors in place of its own.
pub fn says_with(out: &FuseFile, file: &FuseFile, vectors: &[Vector]) -> bool
    ensures { result ≡ true → SaysWith out.now file.now vectors.now }
{
    has_levels(out.fuses.levels(), file.fuses.levels())
        && out.listed == file.listed
        && out.default_level == file.default_level
        && has_vectors(out.vectors.as_slice(), vectors)
}
