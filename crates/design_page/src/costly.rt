//! The warning on active-low outputs that would take far fewer products in the other polarity.

ghost use Rattle.std.specs.Prelude.{◌≤◌, length};
ghost use Rattle.abel_tree.specs.View.{view_module};
ghost use Rattle.compile_phases.specs.Phases.{AreNamesFor};

use crate::costs::{CostlyPolarity, costly_polarities};
use crate::made::Input;
use crate::places::origins_of;
use crate::telling::put_place;
use abel_tree::{Meaning, Module, Names};
use abel_vectors::SourceSections;
use compile_phases::{CompileFault, netlist_of, parts_of, scope_of, sections_of};
use design_drawings::Design;
use fuse_listing::name_on;
use pld_base::{ListOf, OutOfMemory, put_decimal, with_level};
use pld_device::{Device, Loaded};
use std::alloc::Global;

/// The pins that have an active-low name, bit p for pin p.
fn low_pins(names: &Names) -> u32 {
    let mut pins = 0;
    for declared in names.list.as_slice() {
        if let Meaning::Pin { pin, negated: true } = declared.meaning {
            if pin < 32 {
                pins = with_level(pins, pin, true);
            }
        }
    }
    pins
}

/// The outputs with active-low names that are costly; no netlist is made if there is no such name.
fn costly_outputs<'a, D: Device>(
    alloc: Global,
    device: &'a Loaded<D>,
    module: &Module,
    names: &'a Names,
) -> Result<ListOf<CostlyPolarity>, CompileFault>
    requires { AreNamesFor D.table (view_module module.now) names.now }
{
    let pins = low_pins(names);
    if pins == 0 {
        return Ok(ListOf::from_vec(Vec::new(alloc)));
    }
    let source = parts_of(alloc, module)?;
    let scope = scope_of::<D>(alloc, device, names)?;
    let SourceSections {
        contributions,
        vectors: _,
    } = sections_of::<D>(alloc, &source, &scope)?;
    let net = netlist_of::<D>(alloc, &source, &scope, contributions)?;
    match costly_polarities::<D>(alloc, device, &net, pins) {
        Ok(list) => Ok(list),
        Err(OutOfMemory) => Err(CompileFault::OutOfMemory),
    }
}

/// Appends what an output takes in each polarity.
fn put_costs(
    alloc: Global,
    text: &mut Vec<u8>,
    name: &[u8],
    found: CostlyPolarity,
) -> Result<(), OutOfMemory> {
    text.extend_from_slice(b": warning: `")?;
    text.extend_from_slice(name)?;
    text.extend_from_slice(b"` takes ")?;
    put_decimal(alloc, text, found.rows)?;
    text.extend_from_slice(b" products, and its complement ")?;
    put_decimal(alloc, text, found.other)?;
    text.push(b'\n')?;
    Ok(())
}

/// Appends the warnings on active-low outputs that take several times the products of their complement.
pub fn put_costly_outputs<D: Device>(
    device: &Loaded<D>,
    text: &mut Vec<u8>,
    design: Design,
    module: &Module,
    input: Input,
) -> Result<(), CompileFault>
    requires names { AreNamesFor D.table (view_module module.now) design.names.now }
    requires within { length input.bytes.now ≤ 1048576 }
{
    let alloc = design.alloc;
    let list = costly_outputs::<D>(alloc, device, module, design.names)?;
    let origins = origins_of(alloc, input.bytes)?;
    for found in list.as_slice() {
        if let Some(declared) = name_on(design.names, found.pin) {
            put_place(alloc, text, input.name, origins.at(declared.place).source)?;
            put_costs(alloc, text, declared.name.bytes(), *found)?;
        }
    }
    Ok(())
}
