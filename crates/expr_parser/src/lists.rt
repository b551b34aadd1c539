//! Lists of a tree.

ghost use Rattle.std.specs.Prelude.{◌≡◌};

use pld_base::ListOf;

/// The list of a vector's entries, with no room to spare: a vector of one entry has room for four, and a
/// source may consist of such lists.
pub fn packed<T: Drop>(mut entries: Vec<T>) -> ListOf<T>
    ensures { result ≡ entries.items }
{
    entries.shrink_to_fit();
    ListOf::from_vec(entries)
}
