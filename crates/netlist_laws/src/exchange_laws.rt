//! Laws of netlists under a choice, as the contracts of calls that do nothing.

ghost use Rattle.netlist_laws.specs.ExchangedCorrect.{ExchangedIsSound, ExchangedMeansSo, FreeMayExchange, SameChoiceValues, SameChoices, ShownIsSound};

/// A netlist some of whose registers are exchanged allows what its logic allows with these exchanged, and a device can take
/// it if it can take the netlist. Does nothing.
pub fn exchanged_netlists()
    ensures means { ExchangedMeansSo }
    ensures sound { ExchangedIsSound }
{}

/// The registers that a netlist leaves free may be exchanged, so those that fuses show; and the same choice, however it is
/// reported, gives the same logic. Does nothing.
pub fn chosen_netlists()
    ensures free { FreeMayExchange }
    ensures shown { ShownIsSound }
    ensures same { SameChoices }
    ensures values { SameChoiceValues }
{}
