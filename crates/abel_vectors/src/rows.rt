//! Rows of vectors under a header in which nothing is refused.

ghost use Rattle.std.specs.Prelude.{◌≡◌, ℕ, ◌+◌, ◌-◌, IfOk, OnOk, map};
ghost use Rattle.abel_vectors.specs.Prelude.{first_refusal, view_vector_row, context_for, section_order, Tree, Context, marks_of, Term, term_of, SectionFault, IsEntryRead, view_mark, entry_refused};
ghost use Rattle.abel_vectors.specs.{IsReadAs, IsRowRead, FindsRows, IsRowVector, NamesPins, one_too_many};

use crate::chars::Role;
use crate::finding::{Found, both};
use crate::given::{disagree, side_chars, tests_pulse};
use crate::pins::vector_of;
use abel_tree::{VectorRow, Vectors, earlier};
use expr_bits::OnDevice;
use pld_base::{OutOfMemory, Place, Vector};
use pld_device::Device;
use set_expr::SectionFault;
use std::alloc::Global;
use truth_tables::{Entry, Mark, read_entry};

/// The header of a section, with the names at the positions of its sides from the left, None at X.
#[derive(Drop)]
pub(crate) struct Header<'a> {
    pub section: &'a Vectors,
    pub driven: &'a [Option<usize>],
    pub tested: &'a [Option<usize>],
}

/// The vector of a row whose entries meet the header; None if their marks are no vector's.
fn row_vector<D: Device>(
    alloc: Global,
    on: &OnDevice<'_, D>,
    header: &Header<'_>,
    driven: &[Mark],
    tested: &[Mark],
) -> Result<Option<Vector>, OutOfMemory>
    ensures { IfOk result (λ vector. IsRowVector (context_for D.table on.now.scope.now) header.now.driven.now driven.now header.now.tested.now tested.now vector) }
{
    let mut list = side_chars(alloc, on.scope, Role::Driven, header.driven, driven)?;
    let mut behind = side_chars(alloc, on.scope, Role::Tested, header.tested, tested)?;
    list.append(&mut behind)?;
    if tests_pulse(header.tested, tested) || disagree(list.as_slice()) {
        Ok(None)
    } else {
        Ok(Some(vector_of::<D>(on.device, list.as_slice())))
    }
}

/// The marks of an entry, or its refusal.
fn marks_in(entry: Entry) -> Result<Vec<Mark>, SectionFault>
    ensures { (d : Context) (r : SectionFault) (h : Term) (t : Tree) → IsEntryRead d r h t entry
        → IsReadAs (entry_refused d r h t) (λ ms. map view_mark ms.items ≡ marks_of d h (term_of d.known t)) result }
{
    match entry {
        Entry::Marks(marks) => Ok(marks),
        Entry::Refused(fault) => Err(fault),
    }
}

/// A row: its vector, or its first refusal.
fn read_row<D: Device>(
    alloc: Global,
    on: &OnDevice<'_, D>,
    header: &Header<'_>,
    row: &VectorRow,
) -> Result<Result<Vector, SectionFault>, OutOfMemory>
    requires { NamesPins (context_for D.table on.now.scope.now) header.now }
    ensures { IfOk result (λ read. IsRowRead (context_for D.table on.now.scope.now) header.now (view_vector_row row.now) read) }
{
    let bad = SectionFault::BadVector(row.place);
    let driven = read_entry(alloc, on.scope, bad, &header.section.inputs, &row.inputs)?;
    let tested = read_entry(alloc, on.scope, bad, &header.section.outputs, &row.outputs)?;
    match both(marks_in(driven), marks_in(tested)) {
        Ok((driven, tested)) => {
            let vector = row_vector::<D>(alloc, on, header, driven.as_slice(), tested.as_slice())?;
            Ok(vector.ok_or(bad))
        }
        Err(fault) => Ok(Err(fault)),
    }
}

/// What is refused of a row of which so many precede it in a section that has room for so many.
fn refuse_room(room: usize, index: usize, place: Place) -> Option<SectionFault>
    ensures { (before : ℕ) → room ≡ 9999 - before → result ≡ first_refusal section_order (one_too_many (index + before) place) }
{
    if index < room {
        None
    } else {
        Some(SectionFault::BadVector(place))
    }
}

/// The rows of a section that has room for so many. All are gone over, since the first refusal by place may be in any of
/// them.
pub(crate) fn read_rows<D: Device>(
    alloc: Global,
    on: &OnDevice<'_, D>,
    header: &Header<'_>,
    room: usize,
    found: &mut Found,
) -> Result<(), OutOfMemory>
    requires { NamesPins (context_for D.table on.now.scope.now) header.now }
    ensures { OnOk result ((before : ℕ) → room ≡ 9999 - before → FindsRows (context_for D.table on.now.scope.now) before header.now (map view_vector_row header.now.section.now.rows) found.old found.new) }
{
    let rows = header.section.rows.as_slice();
    for index in 0..rows.len() {
        let row = &rows[index];
        let full = refuse_room(room, index, row.place);
        found.fault = earlier(found.fault, full);
        let read = read_row::<D>(alloc, on, header, row)?;
        found.add(read)?;
    }
    Ok(())
}
