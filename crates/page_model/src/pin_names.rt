//! What a page calls the pins.

ghost use Rattle.std.specs.Prelude.{◌≡◌, IfOk, option_map};
ghost use Rattle.abel_tree.specs.Entries.{entries_of, view_declared};
ghost use Rattle.page_model.specs.PinNames.{is_assigned, label_for, label_of};

use abel_tree::{Declared, Names};
use fuse_listing::{name_on, names_complement};
use pld_base::{NameText, OutOfMemory};
use std::alloc::Global;

/// Whether the name that there may be is assigned. Takes no memory.
pub fn is_assigned(name: Option<&Declared>) -> bool
    ensures { result ≡ is_assigned (option_map (λ d. view_declared d.now) name.entry) }
{
    match name {
        Some(declared) => declared.assigned,
        None => false,
    }
}

/// The label of a pin with this name.
fn label_for(alloc: Global, declared: &Declared) -> Result<NameText, OutOfMemory>
    ensures { IfOk result (λ label. label ≡ label_for (view_declared declared.now)) }
{
    if !names_complement(Some(declared)) {
        return declared.name.copy(alloc);
    }
    let mut text = Vec::from_slice(alloc, b"!")?;
    text.extend_from_slice(declared.name.bytes())?;
    NameText::new(alloc, &text)
}

/// The label of a pin: what has the pin's level, so the first name of the pin, or `!` and the name if that is the level's
/// complement. No text if the pin has no name.
pub fn label_of(alloc: Global, names: &Names, pin: u8) -> Result<NameText, OutOfMemory>
    ensures { IfOk result (λ label. label ≡ label_of (entries_of names.now) pin) }
{
    match name_on(names, pin) {
        Some(declared) => label_for(alloc, declared),
        None => NameText::new(alloc, b""),
    }
}
