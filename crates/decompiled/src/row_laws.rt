//! What a row's literals say of the row, as the contracts of a call that does nothing.

ghost use Rattle.decompiled.specs.RowLiterals.{RowsAreProducts, RowsReadLiterals};

/// A row that may be true has the value of its product, and reads the pairs of its literals. Does nothing.
pub fn rows()
    ensures products { RowsAreProducts }
    ensures reads { RowsReadLiterals }
{}
