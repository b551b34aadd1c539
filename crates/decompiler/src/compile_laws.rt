//! That such texts are compiled, as the contract of a call that only calls other laws.

ghost use Rattle.decompiler.specs.Compiling.{ChipTextsAskForThemselves, DecompiledTextsAreAccepted, DecompiledTextsAreShort, DecompiledTextsCompile, PlainTextsAskForThemselves};
ghost use Rattle.decompiler.specs.Recompiled.{RecompiledFusesRunAlike};

use crate::source_laws::sources_are_right;

/// Compiling the text of a device's fuses answers Ok, or that memory ran out. Does nothing.
pub fn compiles()
    ensures short { DecompiledTextsAreShort }
    ensures plain { PlainTextsAskForThemselves }
    ensures chips { ChipTextsAskForThemselves }
    ensures accepted { DecompiledTextsAreAccepted }
    ensures compiles { DecompiledTextsCompile }
{
    sources_are_right();
}

/// A device with the fuses that a decompiled text is compiled to runs as it does with the fuses that the text is of. Does
/// nothing.
pub fn recompiled_runs()
    ensures { RecompiledFusesRunAlike }
{
    sources_are_right();
}
