//! Truth tables: their first refusals, and what they contribute.

ghost use Rattle.std.specs.Prelude.{◌≡◌};
ghost use Rattle.devices.specs.Devices.{table_of};
ghost use Rattle.abel_tree.specs.Entries.{entries_of};
ghost use Rattle.set_expr.specs.Scopes.{AreInOrder, ArePlaced};

use crate::places::{put_blank, put_fault, put_place};
use crate::sources::{Source, module_of, source_of};
use abel_tree::{Module, Section, Table};
use bit_expr::ExprId;
use devices::loaded;
use pld_base::DeviceName;
use pld_device::{Device, Loaded};
use section_targets::{SectionScope, Walked};
use set_expr::{Contribution, Gives, Guard, Scope};
use std::alloc::Global;
use std::marker::Brand;
use test_rows::Found;
use truth_tables::walk_table;

/// The table is the first block.
const FIRST: Guard = Guard {
    when: ExprId(1),
    dontcare: false,
    block: Some(0),
};

/// The table that is the one section.
fn table_of(module: &Module) -> Option<&Table> {
    match module.sections.as_slice() {
        [Section::Table(table)] => Some(table),
        _ => None,
    }
}

/// What a contribution says: its signal, its kind, its bit and its place.
fn put_contribution(given: &Contribution, found: &mut Found) {
    put_blank(found);
    found.number(given.target.signal);
    found.text(match given.what {
        Gives::One => " One ",
        Gives::Any => " Any ",
        Gives::Match => " Match ",
    });
    found.number(given.when.0);
    found.text(" ");
    put_place(given.place, found);
    found.text(";")
}

/// What the table contributes, if nothing is refused of it.
fn put_given(walked: &Walked, found: &mut Found) -> Option<()> {
    if walked.fault.is_some() {
        return None;
    }
    for given in walked.list.as_slice() {
        put_contribution(given, found);
    }
    Some(())
}

/// What is found of the table of a source.
fn walked_of<'a, D: Device>(
    alloc: Global,
    device: &'a Loaded<D>,
    source: &'a Source,
) -> Option<Walked>
    requires order { AreInOrder (entries_of source.now.names) }
    requires placed { ArePlaced source.now.names }
{
    let known = Scope::new(alloc, &source.names).ok()?;
    let scope = SectionScope::new(alloc, device, known).ok()?;
    let table = table_of(&source.module)?;
    let mut walked = Walked::new(alloc);
    walk_table::<D>(alloc, &scope, FIRST, table, &mut walked).ok()?;
    Some(walked)
}

/// What is found of the table of a module for the device that has this table.
fn walked_for<D: Device>(alloc: Global, name: DeviceName, module: Module) -> Option<Walked>
    requires { table_of name ≡ D.table }
{
    let device = loaded::<D>(name);
    let source = source_of::<D>(alloc, &device, module)?;
    walked_of::<D>(alloc, &device, &source)
}

/// Puts what is asked of a table.
pub(crate) fn ask(
    alloc: Global,
    question: &str,
    names: &Found,
    text: &str,
    found: &mut Found,
) -> Option<()> {
    let module = module_of(alloc, names, "", text, "")?;
    let walked = walked_for::<Brand>(alloc, DeviceName::P16L8, module)?;
    match question {
        "refusals" => {
            put_fault(walked.fault, found);
            Some(())
        }
        _ => put_given(&walked, found),
    }
}
