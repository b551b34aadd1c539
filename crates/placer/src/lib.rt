//! Pins for the signals of a module that have none.
#![tactic(auto)]

ghost use Rattle.std.specs.Prelude.{◌≤◌, IfOk, length, map};
ghost use Rattle.placer.specs.Prelude.{view_declared, view_module};
ghost use Rattle.placer.specs.Marks.{HasMarks};
ghost use Rattle.abel_meaning.specs.Reads.{has_enable, is_read};

mod declaring;
mod fault;
mod fitting;
mod laws;
mod marks;
mod naming;
mod needing;
mod nodes;
mod parts;
mod pins;
mod placing;
mod preferring;
mod read_names;
mod rebuilding;
mod seen;
mod targets;
mod wishing;
mod writing;

use abel_tree::Declared;
pub use fault::PlaceFault;
pub use fitting::{is_on_pin, is_taken};
pub use laws::{fitting_pins_are_followed, placed_names_are_numbered, uses_are_reads};
use name_uses::ModuleParts;
pub use parts::has_enables;
pub use placing::place;
use pld_base::OutOfMemory;
pub use seen::Seen;
use std::alloc::Global;

/// Which of the signals, given by their numbers, a module with these names reads, and of which it assigns the
/// enable.
pub fn seen_in(
    alloc: Global,
    names: &[Declared],
    source: &ModuleParts<'_>,
    signals: &[usize],
) -> Result<Seen, OutOfMemory>
    requires { length signals.now ≤ 32 }
    ensures read { IfOk result (λ seen. HasMarks signals.now (is_read (map view_declared names.now) (view_module source.now).sections) seen.read) }
    ensures enabled { IfOk result (λ seen. HasMarks signals.now (has_enable (map view_declared names.now) (view_module source.now).sections) seen.enabled) }
{
    let naming = read_names::naming_of(alloc, names, signals)?;
    naming.see_sections(alloc, source.sections())
}
