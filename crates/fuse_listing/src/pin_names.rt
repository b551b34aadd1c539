//! What the pins of a device are called.

ghost use Rattle.std.specs.Prelude.{◌≡◌, ◌++◌, OnOk, option_map};
ghost use Rattle.abel_tree.specs.Entries.{entries_of, view_declared};
ghost use Rattle.fuse_listing.specs.Listing.{is_complement, name_on, name_text, names_complement};
ghost use Rattle.abel_meaning.specs.Controls.{is_on_pin};

use abel_tree::{Declared, Meaning, Names};
use pld_base::{OutOfMemory, put_decimal};
use std::alloc::Global;

/// Whether a name is declared as this pin.
fn is_on_pin(declared: &Declared, pin: u8) -> bool
    ensures { result ≡ is_on_pin pin (view_declared declared.now).kind }
{
    match &declared.meaning {
        Meaning::Pin {
            pin: other,
            negated: _,
        } => *other == pin,
        _ => false,
    }
}

/// Whether a name is the complement of its pin's level.
fn is_complement(declared: &Declared) -> bool
    ensures { result ≡ is_complement (view_declared declared.now).kind }
{
    match &declared.meaning {
        Meaning::Pin { pin: _, negated } => *negated,
        _ => false,
    }
}

/// The first name of a pin. Takes no memory.
pub fn name_on(names: &Names, pin: u8) -> Option<&Declared>
    ensures { option_map (λ d. view_declared d.now) result ≡ name_on (entries_of names.now) pin }
{
    for declared in names.list.as_slice() {
        if is_on_pin(declared, pin) {
            return Some(declared);
        }
    }
    None
}

/// Whether the name that there may be is the complement of its pin's level. Takes no memory.
pub fn names_complement(name: Option<&Declared>) -> bool
    ensures { result ≡ names_complement (option_map (λ d. view_declared d.now) name.entry) }
{
    match name {
        Some(declared) => is_complement(declared),
        None => false,
    }
}

/// Appends a pin's name, or its number if it has none.
pub fn put_name(
    alloc: Global,
    out: &mut Vec<u8>,
    pin: u8,
    name: Option<&Declared>,
) -> Result<(), OutOfMemory>
    ensures { OnOk result (out.new.items
        ≡ out.old.items ++ name_text pin (option_map (λ d. view_declared d.now) name.entry)) }
{
    match name {
        Some(declared) => {
            out.extend_from_slice(declared.name.bytes())?;
            Ok(())
        }
        None => {
            out.extend_from_slice(b"pin")?;
            put_decimal(alloc, out, usize::from(pin))
        }
    }
}
