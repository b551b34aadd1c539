//! A module with pins for its signals that have none.

ghost use Rattle.std.specs.Prelude.{IfOk};
ghost use Rattle.abel_tree.specs.View.{view_module};
ghost use Rattle.compile_phases.specs.Phases.{AreDeclaredBy};
ghost use Rattle.placer.specs.Following.{HasNumberedNames};

use abel_tree::{Module, Names};
use compile_phases::{CompileFault, declared_of, parts_of, placed_of};
use pld_device::{Device, Loaded};
use std::alloc::Global;

/// The names that a module declares, before its signals are placed.
fn names_in<D: Device>(
    alloc: Global,
    device: &Loaded<D>,
    module: &Module,
) -> Result<Names, CompileFault>
    ensures { IfOk result (AreDeclaredBy D.table (view_module module.now)) }
{
    let source = parts_of(alloc, module)?;
    declared_of::<D>(alloc, device, &source)
}

/// The placed module, whose names have numbers.
pub fn placed_module<D: Device>(
    alloc: Global,
    device: &Loaded<D>,
    module: Module,
) -> Result<Module, CompileFault>
    ensures { IfOk result (λ m. HasNumberedNames D.table (view_module m)) }
{
    let names = names_in::<D>(alloc, device, &module)?;
    placed_of::<D>(alloc, device, module, &names)
}
