//! The names of a module as its declarations say them, before their kinds are known.

ghost use Rattle.std.specs.Prelude.{◌≡◌, ◌++◌, IfOk, OnOk, true, if◌then◌else◌, map};
ghost use Rattle.decls.specs.Prelude.{Table, view_attributes, view_declared, first_refusal, view_module};
ghost use Rattle.decls.specs.Buffers.{registers_wait};
ghost use Rattle.decls.specs.FaultOrder.{name_order};
ghost use Rattle.decls.specs.NameRefusals.{names_once, read_refusals};
ghost use Rattle.decls.specs.Numbers.{buffered_names, number_if, numbered};
ghost use Rattle.decls.specs.Passed.{wants_names};
ghost use Rattle.decls.specs.Shown.{Shows, kept, view_given, view_known, view_said};
ghost use Rattle.decls.specs.Steps.{Progress};

use crate::buffers::registers_wait;
use crate::fault::NameFault;
use crate::items::Given;
use crate::said::Said;
use crate::table::{Known, NameTable};
use crate::walk::names_read;
use abel_tree::{Attributes, Declared};
use bitflags::Flags;
use indexmap::IndexMap;
use name_uses::ModuleParts;
use pld_base::{NameText, OutOfMemory, Place};
use pld_device::{Device, Loaded};
use std::alloc::Global;

/// What the declarations and the uses of a module amount to.
#[derive(Drop)]
pub struct NamesRead {
    /// The names, each as it is declared first. Their attributes are the words of their strings,
    /// and none is assigned.
    pub list: Vec<Declared>,
    /// The names that a string with `buffer` is for, in the order of the source.
    pub buffered: Vec<Buffered>,
    /// The first of what is refused if it is read.
    pub fault: Option<NameFault>,
    /// Whether registers wait for what is assigned, which may be refused then: the device always
    /// inverts, and some string says `buffer`.
    pub registers_wait: bool,
}

/// A name that a string with `buffer` is for: its place in the string's declaration, and its number
/// in the list of names, from 0.
#[derive(Clone, Copy, PartialEq, Eq)]
pub struct Buffered {
    pub place: Place,
    pub number: usize,
}

impl NameTable {
    /// These names by their numbers.
    fn buffered(&self, alloc: Global, names: &[Given]) -> Result<Vec<Buffered>, OutOfMemory>
        ensures { IfOk result (λ bs. (t : Table) (s : Progress) → Shows t self.now s → bs.items ≡ numbered s.entries (map view_given names.now)) }
    {
        let mut list = Vec::new(alloc);
        for given in names {
            add_number(
                &mut list,
                given.place,
                self.number_of(given.name.as_slice()),
            )?;
        }
        Ok(list)
    }
}

/// Adds a name, if it has a number.
fn add_number(
    list: &mut Vec<Buffered>,
    place: Place,
    number: Option<usize>,
) -> Result<(), OutOfMemory>
    ensures { OnOk result (list.new.items ≡ list.old.items ++ number_if place number) }
{
    if let Some(number) = number {
        list.push(Buffered { place, number })?;
    }
    Ok(())
}

/// The attribute if it is said, else none.
fn attribute_if(attribute: Attributes, said: bool) -> Attributes
    ensures { result.0 ≡ (if said then attribute.0 else 0) }
{
    if said { attribute } else { Attributes(0) }
}

/// The attributes that are said.
fn attributes_of(said: Said) -> Attributes
    ensures { view_attributes result ≡ view_said said }
{
    let kind = attribute_if(Attributes::COM, said.combinational).union(attribute_if(
        Attributes::REG,
        said.registered,
    ));
    let polarity = attribute_if(Attributes::BUFFER, said.buffer).union(attribute_if(
        Attributes::INVERT,
        said.invert,
    ));
    let dontcare = attribute_if(Attributes::DC, said.dc);
    kind.union(polarity).union(dontcare)
}

/// A name of the table.
fn declared_of(alloc: Global, name: Vec<u8>, known: Known) -> Result<Declared, OutOfMemory>
    ensures { IfOk result (λ d. view_declared d ≡ view_known (name, known)) }
{
    let Known {
        place,
        meaning,
        said,
    } = known;
    Ok(Declared {
        name: NameText::new(alloc, name.as_slice())?,
        place,
        meaning,
        attributes: attributes_of(said),
        assigned: false,
    })
}

/// The names of the table in their order.
fn list_of(alloc: Global, names: IndexMap<Vec<u8>, Known>) -> Result<Vec<Declared>, OutOfMemory>
    ensures { IfOk result (λ ds. map view_declared ds.items ≡ map view_known names.entries) }
{
    let mut list = Vec::new(alloc);
    for row in names {
        list.push(declared_of(alloc, row.0, row.1)?)?;
    }
    Ok(list)
}

/// The names that a module declares, each as it is declared first, and the first refusal of what is
/// declared and used. A pin or node that is refused has the number 0. Whether a register may be
/// `buffer` isn't looked at. Once something is refused, names after it may be missing, unless
/// registers wait, of which one may be refused before it.
pub fn read_names<D: Device>(
    alloc: Global,
    device: &Loaded<D>,
    source: &ModuleParts<'_>,
) -> Result<NamesRead, OutOfMemory>
    ensures list { IfOk result (λ r. wants_names (registers_wait D.table (view_module source.now)) r.fault ≡ true → map view_declared r.list.items
        ≡ map (kept D.table) (names_once (view_module source.now))) }
    ensures buffered { IfOk result (λ r. wants_names (registers_wait D.table (view_module source.now)) r.fault ≡ true → r.buffered.items
        ≡ buffered_names (view_module source.now)) }
    ensures fault { IfOk result (λ r. r.fault
        ≡ first_refusal name_order (read_refusals D.table (view_module source.now))) }
    ensures wait { IfOk result (λ r. r.registers_wait ≡ registers_wait D.table (view_module source.now)) }
{
    let wait = registers_wait::<D>(device, source.module());
    let table = names_read::<D>(alloc, device, source, wait)?;
    let buffered = table.buffered(alloc, table.waiting.as_slice())?;
    let NameTable {
        pins: _,
        ground: _,
        names,
        has_device: _,
        nodes: _,
        taken: _,
        waiting: _,
        fault,
    } = table;
    let list = list_of(alloc, names)?;
    Ok(NamesRead {
        list,
        buffered,
        fault,
        registers_wait: wait,
    })
}
