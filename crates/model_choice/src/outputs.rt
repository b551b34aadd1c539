//! Signals without numbers that need cells.

ghost use Rattle.std.specs.Prelude.{◌≡◌, ◌≤◌, ◌&&◌, IfOk, filter, length, map, not};
ghost use Rattle.std.specs.List.{count_by};
ghost use Rattle.abel_tree.specs.declared.names.Declared.{Declared};
ghost use Rattle.abel_tree.specs.Entries.{is_stored, view_declared};
ghost use Rattle.abel_tree.specs.View.{view_module};
ghost use Rattle.abel_meaning.specs.Declarations.{is_unnumbered};
ghost use Rattle.abel_meaning.specs.Models.{outputs, registers};
ghost use Rattle.abel_meaning.specs.Reads.{is_read};

use crate::cells::add_if;
use abel_tree::Declared;
use declared_names::is_unnumbered;
use name_uses::ModuleParts;
use placer::seen_in;
use pld_base::{OutOfMemory, level_at};
use std::alloc::Global;

/// Whether it is a register without a number.
fn is_register(declared: &Declared) -> bool
    ensures { result ≡ (is_stored (view_declared declared.now) && is_unnumbered (view_declared declared.now).kind) }
{
    declared.is_stored() && is_unnumbered(&declared.meaning)
}

/// How many names are such registers.
fn count_names(names: &[Declared]) -> usize
    ensures { result ≡ count_by (λ (d : Declared). is_stored (view_declared d) && is_unnumbered (view_declared d).kind) names.now }
{
    names
        .iter()
        .filter(|declared| is_register(declared))
        .count()
}

/// How many registers have no number.
pub(crate) fn count_registers(names: &[Declared]) -> usize
    ensures { result ≡ length (registers (map view_declared names.now)) }
{
    count_names(names)
}

/// Whether it is assigned and has no number.
fn is_output(declared: &Declared) -> bool
    ensures { result ≡ ((view_declared declared.now).assigned && is_unnumbered (view_declared declared.now).kind) }
{
    declared.assigned && is_unnumbered(&declared.meaning)
}

/// The numbers of the first eight signals that are assigned and have no number.
pub(crate) fn outputs(alloc: Global, names: &[Declared]) -> Result<Vec<usize>, OutOfMemory>
    ensures { IfOk result (λ v. v.items ≡ outputs (map view_declared names.now)) }
{
    let mut list = Vec::new(alloc);
    for (number, declared) in names.iter().enumerate() {
        add_if(&mut list, number, is_output(declared))?;
    }
    list.truncate(8);
    Ok(list)
}

/// Those of these signals, at most eight, that the module doesn't read.
pub(crate) fn unread(
    alloc: Global,
    names: &[Declared],
    source: &ModuleParts<'_>,
    signals: &[usize],
) -> Result<Vec<usize>, OutOfMemory>
    requires { length signals.now ≤ 8 }
    ensures { IfOk result (λ v. v.items ≡ filter
        (λ s. not (is_read (map view_declared names.now) (view_module source.now).sections s)) signals.now) }
{
    let seen = seen_in(alloc, names, source, signals)?;
    let mut list = Vec::new(alloc);
    for (place, signal) in signals.iter().enumerate() {
        add_if(&mut list, *signal, !level_at(seen.read, place as u8))?;
    }
    Ok(list)
}
