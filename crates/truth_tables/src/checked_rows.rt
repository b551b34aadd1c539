//! The rows of a table, and the levels of their entries.

ghost use Rattle.std.specs.Prelude.{◌≡◌, None, Some, IfOk};
ghost use Rattle.truth_tables.specs.Prelude.{view, view_row, Context, term_of, first_refusal, section_order, refusal_of};
ghost use Rattle.abel_meaning.specs.Rows as meant;
ghost use Rattle.truth_tables.specs.{view_mark, IsOver, IsLevels, levels_of, IsRow, arrow_refused};

use crate::entries::{Entry, read_entry};
use crate::inside::holds_pulse;
use crate::mark::Mark;
use abel_tree::{Expr, Row, Table, earlier};
use pld_base::{ListOf, OutOfMemory, Place};
use set_expr::{Scope, SectionFault};
use std::alloc::{AllocError, Global};

/// What is found of an entry of a table: its first refusal, and if nothing is refused its level at each position of the
/// header from the left, None at X.
#[derive(Drop)]
pub(crate) struct Levels {
    pub levels: ListOf<Option<bool>>,
    pub fault: Option<SectionFault>,
}

/// The level of a mark.
fn level_of(mark: Mark) -> Option<bool>
    ensures { result ≡ meant.level_of_mark (view_mark mark) }
{
    match mark {
        Mark::Level(on) => Some(on),
        Mark::Unknown | Mark::Pulsed | Mark::Released => None,
    }
}

/// The levels of marks.
fn list_levels(alloc: Global, marks: &[Mark]) -> Result<Vec<Option<bool>>, AllocError>
    ensures { IfOk result (λ ls. ls.items ≡ levels_of marks.now) }
{
    marks.iter().map(|mark| level_of(*mark)).collect(alloc)
}

/// An entry under its header, in a row of a table that is refused so: `.C.` and `.Z.` are in none.
fn read_levels(
    alloc: Global,
    scope: &Scope<'_>,
    row: SectionFault,
    header: &Expr,
    entry: &Expr,
) -> Result<Levels, OutOfMemory>
    requires { refusal_of scope.now (view header.now) ≡ None }
    ensures { IfOk result (λ r. (d : Context) → IsOver scope.now d → IsLevels d row (term_of d.known (view header.now)) (view entry.now) r) }
{
    if holds_pulse(alloc, scope, entry)? {
        return Ok(Levels {
            levels: ListOf::from_vec(Vec::new(alloc)),
            fault: Some(row),
        });
    }
    match read_entry(alloc, scope, row, header, entry)? {
        Entry::Refused(fault) => Ok(Levels {
            levels: ListOf::from_vec(Vec::new(alloc)),
            fault: Some(fault),
        }),
        Entry::Marks(marks) => {
            let levels = list_levels(alloc, marks.as_slice())?;
            Ok(Levels {
                levels: ListOf::from_vec(levels),
                fault: None,
            })
        }
    }
}

/// What is found of the row at a place: its first refusal, and if nothing is refused the levels of its entries at the
/// positions of the header from the left, None at X.
#[derive(Drop)]
pub(crate) struct RowFound {
    pub place: Place,
    pub inputs: ListOf<Option<bool>>,
    pub outputs: ListOf<Option<bool>>,
    pub fault: Option<SectionFault>,
}

/// A row of a table whose header isn't refused: its first refusal, or the levels of its entries.
pub(crate) fn read_row(
    alloc: Global,
    scope: &Scope<'_>,
    table: &Table,
    row: &Row,
) -> Result<RowFound, OutOfMemory>
    requires inputs { refusal_of scope.now (view table.now.inputs) ≡ None }
    requires outputs { refusal_of scope.now (view table.now.outputs) ≡ None }
    ensures { IfOk result (λ r. (d : Context) → IsOver scope.now d → IsRow d table.now.clocked (term_of d.known (view table.now.inputs)) (term_of d.known (view table.now.outputs)) (view_row row.now) r) }
{
    let bad = SectionFault::BadRow(row.place);
    let arrow = (row.clocked != table.clocked).then_some(bad);
    let inputs = read_levels(alloc, scope, bad, &table.inputs, &row.inputs)?;
    let outputs = read_levels(alloc, scope, bad, &table.outputs, &row.outputs)?;
    let entries = earlier(inputs.fault, outputs.fault);
    Ok(RowFound {
        place: row.place,
        inputs: inputs.levels,
        outputs: outputs.levels,
        fault: earlier(arrow, entries),
    })
}
