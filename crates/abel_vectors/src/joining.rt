//! All that the sections of a source say.

ghost use Rattle.std.specs.Prelude.{◌≤◌, All, IfOk, length};
ghost use Rattle.abel_vectors.specs.Prelude.{IsTestVector, entries_of, view_module, Design, design_for, IsTold, sections_refused};
ghost use Rattle.abel_vectors.specs.{AnswersAll, all_sections_refused, AnswersVectors};

use crate::finding::first_of;
use crate::sections::all_vectors;
use abel_tree::Module;
use pld_base::Vector;
use pld_device::Device;
use section_targets::SectionScope;
use set_expr::{Contributions, SectionFault};
use source_sections::contributions;
use std::alloc::Global;

/// What the sections of a source say: its contributions, and its test vectors.
#[derive(Drop)]
pub struct SourceSections {
    pub contributions: Contributions,
    pub vectors: Vec<Vector>,
}

/// The first refusal if the sections are refused, and perhaps the vectors too; lack of memory precedes both.
fn first_with(section: SectionFault, tested: &Result<Vec<Vector>, SectionFault>) -> SectionFault
    ensures { (d : Design) → IsTold (sections_refused d) section → AnswersVectors d tested.now → IsTold (all_sections_refused d) result }
{
    match tested {
        Ok(_) => section,
        Err(vector) => match section {
            SectionFault::OutOfMemory => section,
            _ => match *vector {
                SectionFault::OutOfMemory => *vector,
                _ => first_of(section, *vector),
            },
        },
    }
}

/// What the sections of a module contribute and its test vectors, if nothing is refused of its constants, its sections
/// and its vectors. Else the first refusal by place.
pub fn all_sections<D: Device>(
    alloc: Global,
    scope: &SectionScope<'_, D>,
    source: &Module,
) -> Result<SourceSections, SectionFault>
    ensures answers { AnswersAll (design_for D.table (entries_of scope.now) (view_module source.now)) result }
    // A fuse file has room for the vectors, and may have each.
    ensures few { IfOk result (λ found. length found.vectors.items ≤ 9999) }
    ensures chars { IfOk result (λ found. All (IsTestVector D.table) found.vectors.items) }
{
    let given = contributions::<D>(alloc, scope, source);
    let tested = all_vectors::<D>(alloc, scope.device(), scope.scope(), source);
    match given {
        Ok(contributions) => Ok(SourceSections {
            contributions,
            vectors: tested?,
        }),
        Err(section) => Err(first_with(section, &tested)),
    }
}
