//! The names and numbers of a declaration.

ghost use Rattle.std.specs.Prelude.{◌≡◌, IfOk, OnOk, List, ℕ, map, ◌++◌, length};
ghost use Rattle.decls.specs.Prelude.{list_any, is_bad, item_names, given_names, name_items};
ghost use Rattle.decls.specs.Shown.{view_given, given_by};

use abel_tree::Item;
use name_uses::{is_bad_item, item_count, item_list};
use pld_base::{OutOfMemory, Place};
use std::alloc::Global;

/// A name of a declaration.
#[derive(Drop)]
pub struct Given {
    pub name: Vec<u8>,
    pub place: Place,
    pub negated: bool,
}

/// The names of a declaration, ranges written out.
pub fn given_in(alloc: Global, items: &[Item]) -> Result<Vec<Given>, OutOfMemory>
    ensures { IfOk result (λ gs. map view_given gs.items ≡ given_names items.now) }
{
    let mut list = Vec::new(alloc);
    for item in items {
        add_item(alloc, &mut list, item)?;
    }
    Ok(list)
}

/// The names of one item, a range written out.
pub(crate) fn given_by_item(alloc: Global, item: &Item) -> Result<Vec<Given>, OutOfMemory>
    ensures { IfOk result (λ gs. map view_given gs.items ≡ map (given_by item.now) (item_names item.now)) }
{
    let mut list = Vec::new(alloc);
    add_item(alloc, &mut list, item)?;
    Ok(list)
}

/// How many names a declaration has: in 128 bits, since a short range has many names.
pub(crate) fn count_names(items: &[Item]) -> u128
    ensures { result ≡ length (given_names items.now) }
{
    let mut count = 0u128;
    for item in items {
        count += item_count(item) as u128;
    }
    count
}

/// Adds the names of one item.
fn add_item(alloc: Global, list: &mut Vec<Given>, item: &Item) -> Result<(), OutOfMemory>
    ensures { OnOk result (map view_given list.new.items ≡ map view_given list.old.items ++ map (given_by item.now) (item_names item.now)) }
{
    let names = item_list(alloc, item)?;
    add_names(list, item, names)
}

/// Names of one item.
fn add_names(list: &mut Vec<Given>, item: &Item, names: Vec<Vec<u8>>) -> Result<(), OutOfMemory>
    ensures { OnOk result (map view_given list.new.items ≡ map view_given list.old.items ++ map (given_by item.now) (map name_items names.items)) }
{
    for name in names {
        list.push(Given {
            name,
            place: item.first.place,
            negated: item.negated,
        })?;
    }
    Ok(())
}

/// Whether some range is bad.
pub(crate) fn has_bad(items: &[Item]) -> bool
    ensures { result ≡ list_any is_bad items.now }
{
    for item in items {
        if is_bad_item(item) {
            return true;
        }
    }
    false
}
