//! A device's cells as graphs: the order in which they settle, or a loop; and the chain of reads from
//! the reset row to a register.

ghost use Rattle.std.specs.Prelude.{◌≡◌, ◌<◌, eqb, IfErr, IfNone, IfOk, IfSome, length};
ghost use Rattle.device_logic.specs.Prelude.{IsDistinct, HasNoLoop, IsLeastLoop};
ghost use Rattle.device_logic.specs.CellReads.{IsCellOrder, cell_reads};
ghost use Rattle.device_logic.specs.Graphs.{HasCells, IsGraph, QuestionInRange, holds, reads_as};
ghost use Rattle.device_logic.specs.ResetPaths.{HasNoResetPath, IsResetPath};

use crate::array::FuseArray;
use crate::reads::{cell_reads, plain_reads, row_reads_if_any};
use arrayvec::ArrayVec;
use pld_device::Device;
use pld_order::{LoopFound, VertexSet, order, path};

/// What it is for a cell to read another.
#[derive(Clone, Copy)]
pub enum Reading {
    /// It waits for the other's level.
    Waits,
    /// It is no register, and reads the other's level or Q.
    Plain,
}

/// A question about each cell of a device.
#[derive(Clone, Copy)]
enum Question {
    /// Whether the cell of this number reads it.
    ReadBy(Reading, u8),
    /// Whether the reset row reads it.
    ReadByReset,
    /// Whether it is a register.
    Register,
}

/// The answer for one cell.
fn holds<D: Device>(array: &FuseArray<'_, D>, question: Question, cell: u8) -> bool
    requires question { QuestionInRange D.table question }
    requires cell { cell < length D.table.cells }
    ensures { result ≡ holds D.table array.now question cell }
{
    match question {
        Question::ReadBy(Reading::Waits, from) => cell_reads(array, from, cell),
        Question::ReadBy(Reading::Plain, from) => plain_reads(array, from, cell),
        Question::ReadByReset => row_reads_if_any(array, array.device().reset(), cell),
        Question::Register => array.stores(cell),
    }
}

/// The cells of which the answer is yes.
fn cells<D: Device>(array: &FuseArray<'_, D>, question: Question) -> VertexSet
    requires { QuestionInRange D.table question }
    ensures { HasCells D.table (holds D.table array.now question) result }
{
    let mut cells = VertexSet::new();
    for cell in 0..array.device().cells() {
        if holds(array, question, cell) {
            cells.insert(cell);
        }
    }
    cells
}

/// For each cell the cells that it reads.
fn graph<D: Device>(array: &FuseArray<'_, D>, reading: Reading) -> ArrayVec<VertexSet, 32>
    ensures { IsGraph D.table (reads_as D.table array.now reading) result.items }
{
    let mut sets = ArrayVec::new();
    for cell in 0..array.device().cells() {
        sets.push(cells(array, Question::ReadBy(reading, cell)));
    }
    sets
}

/// The cells in an order in which none waits for itself or a later one, or a loop.
pub fn cell_order<D: Device>(array: &FuseArray<'_, D>) -> Result<ArrayVec<u8, 256>, LoopFound>
    ensures ok { IfOk result (λ order. IsCellOrder D.table array.now order.items) }
    ensures no_loop { IfOk result (λ _.
        HasNoLoop (length D.table.cells) (cell_reads D.table array.now)) }
    ensures refused { IfErr result (λ found.
        IsLeastLoop (length D.table.cells) (cell_reads D.table array.now) found.vertices.items) }
{
    order(graph(array, Reading::Waits).as_slice())
}

/// The cells of a chain from the reset row to a register.
pub fn reset_path<D: Device>(array: &FuseArray<'_, D>) -> Option<ArrayVec<u8, 256>>
    ensures found { IfSome result (λ path. IsResetPath D.table array.now path.items) }
    ensures once { IfSome result (λ path. IsDistinct eqb path.items) }
    ensures none { IfNone result (HasNoResetPath D.table array.now) }
{
    let starts = cells(array, Question::ReadByReset);
    let ends = cells(array, Question::Register);
    path(graph(array, Reading::Plain).as_slice(), &starts, &ends)
}
