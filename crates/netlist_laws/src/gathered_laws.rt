//! Laws of gathered netlists, as the contracts of calls that do nothing.

ghost use Rattle.netlist_laws.specs.GatheredCorrect.{GatheredMeansTheSame, GatheredIsSound};
ghost use Rattle.netlist_laws.specs.GatheredExample.{ExampleIsGathered};

/// The netlist of a module and the module allow the same at every point, and value the nodes alike. Does nothing.
pub fn netlist_means_the_same()
    ensures { GatheredMeansTheSame }
{}

/// If nothing is refused that a device can't take, the netlist of a module is sound for the device: what it reads
/// has columns, each cell is one that the device can have and is once, no signal waits for itself, and no reset
/// reads a register. Does nothing.
pub fn netlist_is_sound()
    ensures { GatheredIsSound }
{}

/// The netlist of the example is the one worked by hand. Does nothing.
pub fn example_is_gathered()
    ensures { ExampleIsGathered }
{}
