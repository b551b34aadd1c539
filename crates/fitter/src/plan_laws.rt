//! Laws of covers and plans over a sound netlist, as the contracts of calls that do nothing.

ghost use Rattle.fitter.specs.Coverable.{SoundCover};
ghost use Rattle.fitter.specs.Plans.{PlansFit};

/// Functions over a sound netlist can be covered by the pairs of the device. Does nothing.
pub fn sound_cover()
    ensures { SoundCover }
{}

/// Fuses that hold a plan of the covers of a sound netlist are the netlist's. Does nothing.
pub fn plans_fit()
    ensures { PlansFit }
{}
