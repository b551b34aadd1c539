//! Laws of all sources, as the contract of a call that does nothing.

ghost use Rattle.abel_meaning.specs.AgreeLaws.{ExpressionsAgree, ContributionsAgree, FunctionsAgree, ValuesAgree, ControlsAgree};

/// At every point the folded bit formulas of every expression have the value of its arithmetic, and the
/// formulas of every contribution, function and control that of the contribution, function and control; and a
/// function allows just the values of its signal. Does nothing.
pub fn formulas_agree()
    ensures expressions { ExpressionsAgree }
    ensures contributions { ContributionsAgree }
    ensures functions { FunctionsAgree }
    ensures values { ValuesAgree }
    ensures controls { ControlsAgree }
{}
