//! Laws of fitted devices, and how the two halves of a compiler join, as the contracts of calls that do nothing.

ghost use Rattle.netlist_laws.specs.FittedCorrect.{FittedDoesTheChosen, FittedDoesTheSame, FittedDoesWhatItSays, FittedRefines};
ghost use Rattle.netlist_laws.specs.FittedExample.{ExampleFits};

/// At each point, with the nodes of a sound netlist valued there, the netlist allows what a device with its
/// fuses does: the same enables, resets and presets, each level that is driven, and each next Q. Does nothing.
pub fn fitted_values()
    ensures { FittedRefines }
{}

/// A device with the fuses of a sound netlist does what the netlist says: it settles and runs in exactly one way, and
/// each of its runs is one of the netlist's. One with the fuses of the netlist under the choice that they show does so
/// under this choice. Does nothing.
pub fn fitted_runs()
    ensures same { FittedDoesTheSame }
    ensures chosen { FittedDoesTheChosen }
{}

/// A device with the fuses of a sound netlist under the choice that they show does what any module says whose netlist it
/// is, under this choice. Does nothing.
pub fn through_a_netlist()
    ensures { FittedDoesWhatItSays }
{}

/// There are such netlists and fuses: those of the example. Does nothing.
pub fn example_fits()
    ensures { ExampleFits }
{}
