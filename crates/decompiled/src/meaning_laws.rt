//! What such sources mean, as the contracts of calls that do nothing.

ghost use Rattle.decompiled.specs.LineGives.{LinesGive, OneLineIsAFunction};
ghost use Rattle.decompiled.specs.PinNames.{PinsAreDeclared, PinsAreKnown};
ghost use Rattle.decompiled.specs.SumFormulas.{SumsHaveFormulas};

/// A source declares its device's name and its pins, and the name of each pin is its signal's. Does nothing.
pub fn names()
    ensures declared { PinsAreDeclared }
    ensures known { PinsAreKnown }
{}

/// A sum of products is one bit, with its formula. Does nothing.
pub fn sums()
    ensures { SumsHaveFormulas }
{}

/// Each line gives its sum to the signal of its pin; if a signal has one line, that sum is its function. Does nothing.
pub fn lines()
    ensures give { LinesGive }
    ensures functions { OneLineIsAFunction }
{}
