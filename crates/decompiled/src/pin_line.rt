//! Declarations of pins.

ghost use Rattle.std.specs.Prelude.{◌≡◌, ◌++◌, OnOk, codes};
ghost use Rattle.decompiled.specs.Prelude.{decimal};
ghost use Rattle.decompiled.specs.SourceText.{attributes_text, name_text, pin_text};

use crate::literal::put_name;
use pld_base::{OutOfMemory, put_decimal};
use std::alloc::Global;

/// A declared pin, and of a register whether the pin equals its Q.
#[derive(Clone, Copy, PartialEq, Eq)]
pub struct PinLine {
    pub pin: u8,
    pub follows: Option<bool>,
}

/// Appends the attributes of a register.
fn put_attributes(out: &mut Vec<u8>, follows: Option<bool>) -> Result<(), OutOfMemory>
    ensures { OnOk result (out.new.items ≡ out.old.items ++ attributes_text follows) }
{
    let text: &[u8] = match follows {
        None => b"",
        Some(true) => b" istype 'reg,buffer'",
        Some(false) => b" istype 'reg,invert'",
    };
    out.extend_from_slice(text)?;
    Ok(())
}

/// Appends a pin's name and its number.
fn put_numbered(alloc: Global, out: &mut Vec<u8>, pin: u8) -> Result<(), OutOfMemory>
    ensures { OnOk result (out.new.items ≡ out.old.items ++ (name_text pin ++ codes " pin " ++ decimal pin)) }
{
    put_name(alloc, out, pin)?;
    out.extend_from_slice(b" pin ")?;
    put_decimal(alloc, out, usize::from(pin))
}

impl PinLine {
    /// Appends the line.
    pub fn put(&self, alloc: Global, out: &mut Vec<u8>) -> Result<(), OutOfMemory>
        ensures { OnOk result (out.new.items ≡ out.old.items ++ pin_text self.now) }
    {
        put_numbered(alloc, out, self.pin)?;
        put_attributes(out, self.follows)?;
        out.extend_from_slice(b";\n")?;
        Ok(())
    }
}
