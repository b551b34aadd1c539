//! The lines of a source that its test vectors are on.

ghost use Rattle.std.specs.Prelude.{◌≤◌, length};

use crate::places::{Origins, origins_of};
use abel_tree::{Module, Section, Vectors};
use pld_base::OutOfMemory;
use std::alloc::Global;

/// Adds the lines of a section's vectors.
fn add_lines(
    lines: &mut Vec<u32>,
    origins: &Origins,
    vectors: &Vectors,
) -> Result<(), OutOfMemory> {
    for row in vectors.rows.as_slice() {
        lines.push(origins.at(row.place).source.line)?;
    }
    Ok(())
}

/// The line of each vector of a module, in the order of the vectors.
pub fn vector_lines(alloc: Global, module: &Module, text: &[u8]) -> Result<Vec<u32>, OutOfMemory>
    requires { length text.now ≤ 1048576 }
{
    let origins = origins_of(alloc, text)?;
    let mut lines = Vec::new(alloc);
    for section in module.sections.as_slice() {
        if let Section::Vectors(vectors) = section {
            add_lines(&mut lines, &origins, vectors)?;
        }
    }
    Ok(lines)
}
