//! Sections of vectors: one, and all of a source.

ghost use Rattle.std.specs.Prelude.{◌≡◌, ℕ, ◌+◌, ◌-◌, ◌≤◌, All, IfOk, OnOk, length};
ghost use Rattle.abel_vectors.specs.Prelude.{IsTestVector, entries_of, view_module, view_section, design_for, section_vectors, context_for};
ghost use Rattle.abel_vectors.specs.{Finds, FindsSection, view_vectors, AnswersVectors, Answers, vectors_refused};

use crate::finding::{Found, both};
use crate::headers::read_side;
use crate::rows::{Header, read_rows};
use abel_tree::{Module, Section, Vectors};
use expr_bits::OnDevice;
use pld_base::{OutOfMemory, Vector};
use pld_device::{Device, Loaded};
use set_expr::{Scope, SectionFault};
use std::alloc::Global;

/// The most vectors of a source.
const MOST: usize = 9_999;

/// A section of vectors that has room for so many: both sides of its header, and then its rows.
fn read_section<D: Device>(
    alloc: Global,
    on: &OnDevice<'_, D>,
    section: &Vectors,
    room: usize,
    found: &mut Found,
) -> Result<(), OutOfMemory>
    ensures { OnOk result ((before : ℕ) → room ≡ 9999 - before → Finds D.table (vectors_refused (context_for D.table on.now.scope.now) before (view_vectors section.now)) (section_vectors (context_for D.table on.now.scope.now) (view_vectors section.now)) found.old found.new) }
{
    let inputs = read_side(alloc, on.scope, section.place, &section.inputs)?;
    let outputs = read_side(alloc, on.scope, section.place, &section.outputs)?;
    match both(inputs, outputs) {
        Ok((driven, tested)) => {
            let header = Header {
                section,
                driven: driven.as_slice(),
                tested: tested.as_slice(),
            };
            read_rows::<D>(alloc, on, &header, room, found)
        }
        Err(fault) => {
            found.refuse(fault);
            Ok(())
        }
    }
}

/// Any section, with room for so many vectors; the room after it.
fn add_section<D: Device>(
    alloc: Global,
    on: &OnDevice<'_, D>,
    section: &Section,
    room: usize,
    found: &mut Found,
) -> Result<usize, OutOfMemory>
    ensures { IfOk result (λ left. (before : ℕ) → room ≡ 9999 - before → FindsSection (context_for D.table on.now.scope.now) before (view_section section.now) left found.old found.new) }
{
    match section {
        Section::Vectors(section) => {
            read_section::<D>(alloc, on, section, room, found)?;
            Ok(room.saturating_sub(section.rows.as_slice().len()))
        }
        _ => Ok(room),
    }
}

/// The vectors of a section, which is one of TEST_VECTORS or has none, as the characters of the device's pins; `before`
/// counts those of the sections before it, at most 9,999. The answer is else the first refusal by place. Takes the time
/// of the header and the rows with the sets that constants represent.
pub fn vectors<D: Device>(
    alloc: Global,
    device: &Loaded<D>,
    scope: &Scope<'_>,
    section: &Section,
    before: u32,
) -> Result<Vec<Vector>, SectionFault>
    requires before { before ≤ 9999 }
    ensures answers { Answers (context_for D.table scope.now) before (view_section section.now) result }
    // So many are the vectors of the sections up to this one.
    ensures few { IfOk result (λ list. before + length list.items ≤ 9999) }
    // A fuse file may have them.
    ensures chars { IfOk result (λ list. All (IsTestVector D.table) list.items) }
{
    let mut found = Found::new(alloc);
    let on = OnDevice { device, scope };
    add_section::<D>(alloc, &on, section, MOST - before as usize, &mut found)?;
    found.answer()
}

/// The test vectors of a module as the characters of the device's pins, in order of the source, if nothing of them is
/// refused; else the first refusal by place. All sections are gone over, since any may have it.
pub(crate) fn all_vectors<D: Device>(
    alloc: Global,
    device: &Loaded<D>,
    scope: &Scope<'_>,
    source: &Module,
) -> Result<Vec<Vector>, SectionFault>
    ensures answers { AnswersVectors (design_for D.table (entries_of scope.now) (view_module source.now)) result }
    // A fuse file has room for them, and may have each.
    ensures few { IfOk result (λ list. length list.items ≤ 9999) }
    ensures chars { IfOk result (λ list. All (IsTestVector D.table) list.items) }
{
    let mut found = Found::new(alloc);
    let mut room = MOST;
    let on = OnDevice { device, scope };
    for section in source.sections.as_slice() {
        room = add_section::<D>(alloc, &on, section, room, &mut found)?;
    }
    found.answer()
}
