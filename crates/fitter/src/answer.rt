//! What fitting answers.

use covers::Cube;
use pld_base::ListOf;
use pld_device::Fuses;

/// The rows of an assigned cell: its data rows that are not all 0, in the order of their fuses, as cubes over the columns; and
/// whether the pin is the complement of what the rows or the register give.
#[derive(Drop)]
pub struct FittedCell {
    pub cell: u8,
    pub inverted: bool,
    pub rows: ListOf<Cube>,
}

/// The fuses of a netlist, and the rows of its cells in the order of cells.
#[derive(Drop)]
pub struct Fitted {
    pub fuses: Fuses,
    pub cells: ListOf<FittedCell>,
}
