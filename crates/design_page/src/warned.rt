//! The warnings on a source, as lines of the report.

ghost use Rattle.std.specs.Prelude.{◌≤◌, length};

use crate::assigned_twice::assigned_twice;
use crate::made::Input;
use crate::pin_warnings::pin_warnings;
use crate::places::{Origins, origins_of};
use crate::plus_signs::signs_of_plus;
use crate::telling::put_place;
use abel_tree::Module;
use design_drawings::Design;
use pld_base::{NameText, OutOfMemory};
use pld_device::{Device, Loaded};
use reports::{Cause, Warning, warnings};
use std::alloc::Global;

/// What a warning says, with its name between the two halves.
fn words(cause: Cause) -> (&'static [u8], &'static [u8]) {
    match cause {
        Cause::PlusOfSingles => (b"`+` between single signals is XOR; OR is `#`", b""),
        Cause::IdleWord => (b"the word `", b"` does nothing here"),
        Cause::SecondAssignment => (b"`", b"` is assigned before; the two are joined by OR"),
        Cause::UnusedPin => (b"`", b"` is neither read nor assigned"),
        Cause::AssertedAtPowerUp => (
            b"`",
            b"` is active-low, and its register asserts it after power-up",
        ),
        Cause::NoVectors => (b"there are no test vectors", b""),
    }
}

/// Appends the line on a warning.
fn put_warning(
    alloc: Global,
    text: &mut Vec<u8>,
    name: &[u8],
    origins: &Origins,
    warning: &Warning,
) -> Result<(), OutOfMemory> {
    if warning.cause == Cause::NoVectors {
        text.extend_from_slice(name)?;
    } else {
        put_place(alloc, text, name, origins.at(warning.place).source)?;
    }
    let (front, behind) = words(warning.cause);
    text.extend_from_slice(b": warning: ")?;
    text.extend_from_slice(front)?;
    text.extend_from_slice(warning.name.bytes())?;
    text.extend_from_slice(behind)?;
    text.push(b'\n')?;
    Ok(())
}

/// Appends the lines on warnings.
fn put_list(
    alloc: Global,
    text: &mut Vec<u8>,
    input: Input,
    list: &[Warning],
) -> Result<(), OutOfMemory>
    requires { length input.bytes.now ≤ 1048576 }
{
    let origins = origins_of(alloc, input.bytes)?;
    for warning in list {
        put_warning(alloc, text, input.name, &origins, warning)?;
    }
    Ok(())
}

/// Adds the warnings on `+` that `warnings` doesn't look for.
fn add_plus_signs(
    found: &mut Vec<Warning>,
    design: Design,
    module: &Module,
) -> Result<(), OutOfMemory> {
    for place in signs_of_plus(design.alloc, module, design.names)? {
        found.push(Warning {
            cause: Cause::PlusOfSingles,
            place,
            name: NameText::new(design.alloc, b"")?,
        })?;
    }
    Ok(())
}

/// The warnings on what is written: those of each section that are seen in it alone, then `+` elsewhere, and then names that are
/// assigned twice.
fn written_warnings(design: Design, module: &Module) -> Result<Vec<Warning>, OutOfMemory> {
    let mut found = Vec::new(design.alloc);
    for warning in warnings(design.alloc, module, design.names)?.into_vec() {
        if matches!(warning.cause, Cause::PlusOfSingles | Cause::IdleWord) {
            found.push(warning)?;
        }
    }
    add_plus_signs(&mut found, design, module)?;
    for warning in assigned_twice(design.alloc, module)? {
        found.push(warning)?;
    }
    Ok(found)
}

/// Adds that a source has no test vectors, if it has none.
fn add_no_vectors(
    found: &mut Vec<Warning>,
    design: Design,
    module: &Module,
) -> Result<(), OutOfMemory> {
    if design.file.vectors.as_slice().is_empty() {
        found.push(Warning {
            cause: Cause::NoVectors,
            place: module.place,
            name: NameText::new(design.alloc, b"")?,
        })?;
    }
    Ok(())
}

/// Appends the warnings on a compiled source.
pub fn put_warnings<D: Device>(
    device: &Loaded<D>,
    text: &mut Vec<u8>,
    design: Design,
    module: &Module,
    input: Input,
) -> Result<(), OutOfMemory>
    requires { length input.bytes.now ≤ 1048576 }
{
    let mut of_source = written_warnings(design, module)?;
    let of_pins = pin_warnings::<D>(device, design, module)?;
    add_no_vectors(&mut of_source, design, module)?;
    put_list(design.alloc, text, input, &of_source)?;
    put_list(design.alloc, text, input, &of_pins)
}
