//! Which signals a module reads, one by one.

ghost use Rattle.std.specs.Prelude.{◌≡◌, ◌≤◌, ◌∷◌, [], IfOk, map, position};
ghost use Rattle.abel_meaning.specs.Controls.{is_on_pin};
ghost use Rattle.abel_meaning.specs.Models.{is_read_at, is_simple, reads_pins};
ghost use Rattle.abel_meaning.specs.Reads.{is_read};
ghost use Rattle.abel_tree.specs.declared.names.Declared.{Declared};
ghost use Rattle.abel_tree.specs.Entries.{Entry, view_declared};
ghost use Rattle.abel_tree.specs.View.{view_module};

use abel_tree::Declared;
use name_uses::ModuleParts;
use placer::{has_enables, is_on_pin, seen_in};
use pld_base::{OutOfMemory, level_at};
use std::alloc::Global;

/// Whether the module reads the signal of a number.
fn is_read(
    alloc: Global,
    names: &[Declared],
    source: &ModuleParts<'_>,
    signal: usize,
) -> Result<bool, OutOfMemory>
    ensures { IfOk result (λ read. read ≡ is_read (map view_declared names.now) (view_module source.now).sections signal) }
{
    let signals = [signal];
    let seen = seen_in(alloc, names, source, &signals)?;
    Ok(level_at(seen.read, 0))
}

/// The first name on a pin.
fn name_on(names: &[Declared], pin: u8) -> Option<usize>
    ensures { result ≡ position (λ (d : Declared). is_on_pin pin (view_declared d).kind) names.now }
{
    names
        .iter()
        .position(|declared| is_on_pin(pin, &declared.meaning))
}

/// The first signal on a pin.
fn signal_on(names: &[Declared], pin: u8) -> Option<usize>
    ensures { result ≡ position (λ (x : Entry). is_on_pin pin x.kind) (map view_declared names.now) }
{
    name_on(names, pin)
}

/// Whether the module reads the signal on a pin.
fn reads_pin(
    alloc: Global,
    names: &[Declared],
    source: &ModuleParts<'_>,
    pin: u8,
) -> Result<bool, OutOfMemory>
    ensures { IfOk result (λ read. read ≡ is_read_at (map view_declared names.now) (view_module source.now).sections
        (position (λ (x : Entry). is_on_pin pin x.kind) (map view_declared names.now))) }
{
    match signal_on(names, pin) {
        Some(signal) => is_read(alloc, names, source, signal),
        None => Ok(false),
    }
}

/// Whether it reads the signal on one of two pins.
pub(crate) fn reads_either(
    alloc: Global,
    names: &[Declared],
    source: &ModuleParts<'_>,
    first: u8,
    second: u8,
) -> Result<bool, OutOfMemory>
    ensures { IfOk result (λ read. read ≡ reads_pins (map view_declared names.now) (view_module source.now).sections
        (first ∷ second ∷ [])) }
{
    let is_first = reads_pin(alloc, names, source, first)?;
    let is_second = reads_pin(alloc, names, source, second)?;
    Ok(is_first || is_second)
}

/// Whether simple mode serves: the module has no enable, and reads neither pin in the middle.
pub(crate) fn is_simple(
    alloc: Global,
    top: u8,
    names: &[Declared],
    source: &ModuleParts<'_>,
) -> Result<bool, OutOfMemory>
    requires { 7 ≤ top }
    ensures { IfOk result (λ simple. simple ≡ is_simple top (map view_declared names.now) (view_module source.now).sections) }
{
    let reads_middle = reads_either(alloc, names, source, top - 3, top - 4)?;
    Ok(!has_enables(source) && !reads_middle)
}
