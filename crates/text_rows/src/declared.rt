//! Sources with the device that they name and the names that they declare, or with what is refused of them.

ghost use Rattle.std.specs.Prelude.{◌≡◌};
ghost use Rattle.devices.specs.Devices.{table_of};

use crate::attribute_sets::put_attributes;
use crate::cases::Case;
use crate::faults::{put_place, put_refusal};
use crate::sources::{framed, marked, module_of};
use abel_tree::{Declared, Meaning, Module, Names};
use declared_names::declare;
use decls::{NameFault, device_of};
use devices::loaded;
use name_uses::ModuleParts;
use pld_base::{DeviceName, NameText, Place};
use pld_device::Device;
use std::alloc::Global;
use std::marker::Brand;
use test_rows::{Found, halves, unescaped};

/// The names for the device that has this table.
fn declared_for<D: Device>(
    alloc: Global,
    name: DeviceName,
    module: &Module,
) -> Result<Names, NameFault>
    requires { table_of name ≡ D.table }
{
    let source = ModuleParts::new(alloc, module)?;
    declare::<D>(alloc, &loaded::<D>(name), &source)
}

/// The names for the device that a module names.
pub fn declared(alloc: Global, module: &Module) -> Result<Names, NameFault> {
    declared_for::<Brand>(alloc, device_of(module)?, module)
}

/// Puts a refusal with its name and its place.
fn put_named(found: &mut Found, kind: &str, place: Place, name: &NameText) {
    found.text(kind);
    found.text(" ");
    found.put(name.bytes());
    found.text(" ");
    put_place(found, place)
}

/// Puts the refusal of names.
pub fn put_name_fault(found: &mut Found, fault: &NameFault) {
    match fault {
        NameFault::Redeclared(place, name) => put_named(found, "Redeclared", *place, name),
        NameFault::UnknownDevice(place) => put_refusal(found, "UnknownDevice", *place),
        NameFault::BadRange(place) => put_refusal(found, "BadRange", *place),
        NameFault::BadPin(place, name) => put_named(found, "BadPin", *place, name),
        NameFault::PinTaken(place, name) => put_named(found, "PinTaken", *place, name),
        NameFault::BadAttribute(place) => put_refusal(found, "BadAttribute", *place),
        NameFault::TooManyNodes(place, name) => put_named(found, "TooManyNodes", *place, name),
        NameFault::Undeclared(place, name) => put_named(found, "Undeclared", *place, name),
        NameFault::OutOfMemory => found.text("OutOfMemory"),
    }
}

/// Puts what a name represents.
fn put_meaning(found: &mut Found, declared: &Declared) {
    match &declared.meaning {
        Meaning::Pin { pin, negated } => {
            found.text(if *negated { " !pin " } else { " pin " });
            found.number(usize::from(*pin));
            put_attributes(found, declared.attributes)
        }
        Meaning::Node(number) => {
            found.text(" node ");
            found.number(*number as usize);
            put_attributes(found, declared.attributes)
        }
        Meaning::Constant(_) => found.text(" constant"),
        Meaning::DeviceName => found.text(" device"),
    }
}

/// Puts the names in their order, each with what it represents and whether it is assigned.
fn put_names(found: &mut Found, names: &Names) {
    let mut front = "";
    for declared in names.list.as_slice() {
        found.text(front);
        found.put(declared.name.bytes());
        put_meaning(found, declared);
        found.text(if declared.assigned { " assigned;" } else { ";" });
        front = " ";
    }
}

/// The names that a source declares, or its refusal.
pub fn names_of(alloc: Global, source: &[u8]) -> Found {
    let mut found = Found::new(alloc);
    let Some(module) = module_of(alloc, source, &mut found) else {
        return found;
    };
    match declared(alloc, &module) {
        Ok(names) => put_names(&mut found, &names),
        Err(fault) => put_name_fault(&mut found, &fault),
    }
    found
}

/// The device that a source names, or its refusal.
fn device_named(alloc: Global, source: &[u8]) -> Found {
    let mut found = Found::new(alloc);
    let Some(module) = module_of(alloc, source, &mut found) else {
        return found;
    };
    match device_of(&module) {
        Ok(name) => found.text(name.text()),
        Err(fault) => put_name_fault(&mut found, &fault),
    }
    found
}

/// The device of a module with these declarations.
pub fn device(alloc: Global, declarations: &str) -> Found {
    let source = framed(alloc, "module m ", declarations.as_bytes(), " end");
    device_named(alloc, source.bytes())
}

/// The case of a source that names no device, with a mark at the place.
pub fn without_device(alloc: Global, text: &str) -> Option<Case> {
    let (source, place) = marked(alloc, text)?;
    let mut expected = Found::new(alloc);
    put_refusal(&mut expected, "UnknownDevice", place);
    Some(Case {
        expected,
        found: device_named(alloc, source.bytes()),
    })
}

/// A source of the form `DEVICE DECLARATIONS` as a whole.
pub fn whole(alloc: Global, text: &str) -> Option<Found> {
    let (device, declarations) = text.split_once(' ')?;
    let mut source = framed(alloc, "module m u device '", device.as_bytes(), "'; ");
    source.put(unescaped(alloc, declarations)?.as_slice());
    source.text(" end");
    Some(source)
}

/// The names of a row, with that of its device.
fn all_names(alloc: Global, names: &str) -> Found {
    let front = if names == "\\e" { "" } else { " " };
    let names = if names == "\\e" { "" } else { names };
    let mut all = Found::new(alloc);
    all.text("u device;");
    all.text(front);
    all.text(names);
    all
}

/// The case of a row `DEVICE DECLARATIONS => NAMES`, of which the device's own isn't reported.
pub fn names(alloc: Global, text: &str) -> Option<Case> {
    let (text, names) = halves(text)?;
    let source = whole(alloc, text)?;
    Some(Case {
        expected: all_names(alloc, names),
        found: names_of(alloc, source.bytes()),
    })
}

/// The case of a row `DEVICE DECLARATIONS => REFUSAL`, with a mark at the place.
pub fn refused(alloc: Global, text: &str) -> Option<Case> {
    let (text, refusal) = halves(text)?;
    let whole = whole(alloc, text)?;
    let marked_source = std::str::from_utf8(whole.bytes()).ok()?;
    let (source, place) = marked(alloc, marked_source)?;
    let mut expected = Found::new(alloc);
    put_refusal(&mut expected, refusal, place);
    Some(Case {
        expected,
        found: names_of(alloc, source.bytes()),
    })
}
