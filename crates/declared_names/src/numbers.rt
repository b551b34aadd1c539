//! The numbers of names.

ghost use Rattle.std.specs.Prelude.{◌≡◌, IfOk, List, ℕ, map};
ghost use Rattle.declared_names.specs.Prelude.{find, view_declared};
ghost use Rattle.declared_names.specs.{number_in};

use abel_tree::Declared;
use indexmap::IndexMap;
use pld_base::OutOfMemory;
use std::alloc::Global;

/// The number of each name, that of its first declaration.
#[derive(Drop)]
pub(crate) struct Numbers {
    pub(crate) map: IndexMap<Vec<u8>, usize>,
}

/// The first so many names, by the numbers of all: a constant names earlier ones alone.
#[derive(Clone, Copy)]
pub(crate) struct FirstNames<'a> {
    pub(crate) numbers: &'a Numbers,
    pub(crate) limit: usize,
}

/// Numbers the names, each by its first declaration.
pub(crate) fn numbers_of(alloc: Global, names: &[Declared]) -> Result<Numbers, OutOfMemory>
    ensures { IfOk result (λ ns. (name : List ℕ) → number_in ns.map.entries name ≡ find (map view_declared names.now) name) }
{
    let mut numbers = Numbers {
        map: IndexMap::new(alloc),
    };
    for (number, declared) in names.iter().enumerate() {
        let name = declared.name.bytes();
        if numbers.map.get(name).is_some() {
            continue;
        }
        let key = Vec::from_slice(alloc, name)?;
        numbers.map.insert(key, number)?;
    }
    Ok(numbers)
}
