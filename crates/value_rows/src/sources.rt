//! From the text of a row to a module and its names.

ghost use Rattle.std.specs.Prelude.{IfSome};
ghost use Rattle.abel_tree.specs.Entries.{entries_of};
ghost use Rattle.set_expr.specs.Scopes.{AreInOrder, ArePlaced};

use abel_tree::{Module, Names};
use declared_names::{are_numbered, declare, numbered_names};
use module_reader::read_module;
use name_uses::ModuleParts;
use pld_device::{Device, Loaded};
use std::alloc::Global;
use test_rows::Found;

/// The line of a source on which the text of a row is, from its first column on.
pub(crate) const ROW: u32 = 4;

/// More bytes than any source of a row has.
const LONGEST: usize = 100_000;

/// A module with its names.
#[derive(Drop)]
pub(crate) struct Source {
    pub(crate) module: Module,
    pub(crate) names: Names,
}

/// The module that a text says, if it says one.
fn read(alloc: Global, text: &[u8]) -> Option<Module> {
    if text.len() > LONGEST {
        return None;
    }
    read_module(alloc, text).ok()
}

/// The module that declares these names, and goes on with the row's text between two others.
pub(crate) fn module_of(
    alloc: Global,
    names: &Found,
    front: &str,
    text: &str,
    back: &str,
) -> Option<Module> {
    let mut source = Found::new(alloc);
    source.text("module m\n");
    source.put(names.bytes());
    source.text("\n");
    source.text(front);
    source.text("\n");
    source.text(text);
    source.text(back);
    source.text("\nend\n");
    read(alloc, source.bytes())
}

/// The names of a module for a device, if each pin has a number.
fn names_of<D: Device>(alloc: Global, device: &Loaded<D>, module: &Module) -> Option<Names>
    ensures order { IfSome result (λ n. AreInOrder (entries_of n)) }
    ensures placed { IfSome result (λ n. ArePlaced n) }
{
    numbered_names();
    let source = match ModuleParts::new(alloc, module) {
        Ok(source) => source,
        Err(_) => return None,
    };
    match declare::<D>(alloc, device, &source) {
        Ok(names) => {
            if are_numbered(&names) {
                Some(names)
            } else {
                None
            }
        }
        Err(_) => None,
    }
}

/// A module with its names for a device.
pub(crate) fn source_of<D: Device>(
    alloc: Global,
    device: &Loaded<D>,
    module: Module,
) -> Option<Source>
    ensures order { IfSome result (λ s. AreInOrder (entries_of s.names)) }
    ensures placed { IfSome result (λ s. ArePlaced s.names) }
{
    let names = names_of::<D>(alloc, device, &module)?;
    Some(Source { module, names })
}
