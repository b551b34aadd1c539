//! A vector that contracts see as its list.

ghost use Rattle.std.specs.Prelude.{◌≡◌};

use std::marker::Model;

/// A field's vector, seen by contracts as the list of its entries.
#[derive(Drop)]
pub struct ListOf<T: Drop> {
    entries: Vec<T>,
}

impl<T: Drop> Model for ListOf<T> {
    ghost use Rattle.std.specs.Prelude.{List};
    ghost use Rattle.std.specs.Coded.{coded_list};

    ghost Value = { List T };

    ghost coded = { coded_list T.code };

    ghost view = { λ l. l.entries.items };
}

impl<T: Drop> ListOf<T> {
    /// The list of a vector's entries. Takes no memory.
    pub fn from_vec(entries: Vec<T>) -> ListOf<T>
        ensures { result ≡ entries.items }
    {
        ListOf { entries }
    }

    /// The vector back. Takes no memory.
    pub fn into_vec(self) -> Vec<T>
        ensures { result.items ≡ self }
    {
        self.entries
    }

    /// The entries in order. Takes no memory.
    pub fn as_slice(&self) -> &[T]
        ensures { result.now ≡ self.now }
    {
        self.entries.as_slice()
    }
}
