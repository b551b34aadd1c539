//! What the lines of a decompiled source and its netlist are to the fuses, as the contracts of calls that do nothing.

ghost use Rattle.decompiled.specs.Alike.{LogicsAreAlike};
ghost use Rattle.decompiled.specs.OwnLines.{CellsHaveTheirLines};
ghost use Rattle.decompiled.specs.RowSums.{SumsHaveRows};

/// The lines of a cell's signal are the cell's, and the sum of its live rows has the value of its OR. Does nothing.
pub fn cells()
    ensures lines { CellsHaveTheirLines }
    ensures rows { SumsHaveRows }
{}

/// A netlist that asks of each cell what its lines say allows just what the device with the fuses does. Does nothing.
pub fn logics()
    ensures { LogicsAreAlike }
{}
