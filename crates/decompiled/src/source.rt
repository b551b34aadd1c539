//! The whole source.

ghost use Rattle.std.specs.Prelude.{◌≡◌, ◌++◌, IfOk, OnOk, flat_map};
ghost use Rattle.decompiled.specs.SourceText.{head_text, line_text, pin_text, source_text};

use crate::pin_line::PinLine;
use crate::sum_line::SumLine;
use pld_base::{DeviceName, ListOf, OutOfMemory};
use std::alloc::Global;

/// A source that declares pins of a device and assigns sums of products.
#[derive(Drop)]
pub struct PinSource {
    pub device: DeviceName,
    pub pins: ListOf<PinLine>,
    pub lines: ListOf<SumLine>,
}

/// Appends the lines before the first pin's.
fn put_head(out: &mut Vec<u8>, device: DeviceName) -> Result<(), OutOfMemory>
    ensures { OnOk result (out.new.items ≡ out.old.items ++ head_text device) }
{
    out.extend_from_slice(b"module chip\nd device '")?;
    out.extend_from_slice(device.text().as_bytes())?;
    out.extend_from_slice(b"';\n")?;
    Ok(())
}

/// Appends the lines of pins.
fn put_pins(alloc: Global, out: &mut Vec<u8>, pins: &[PinLine]) -> Result<(), OutOfMemory>
    ensures { OnOk result (out.new.items ≡ out.old.items ++ flat_map pin_text pins.now) }
{
    for pin in pins {
        pin.put(alloc, out)?;
    }
    Ok(())
}

/// Appends the lines of sums.
fn put_lines(alloc: Global, out: &mut Vec<u8>, lines: &[SumLine]) -> Result<(), OutOfMemory>
    ensures { OnOk result (out.new.items ≡ out.old.items ++ flat_map line_text lines.now) }
{
    for line in lines {
        line.put(alloc, out)?;
    }
    Ok(())
}

impl PinSource {
    /// The text, which ends in a line feed.
    pub fn text(&self, alloc: Global) -> Result<Vec<u8>, OutOfMemory>
        ensures { IfOk result (λ text. text.items ≡ source_text self.now) }
    {
        let mut out = Vec::new(alloc);
        put_head(&mut out, self.device)?;
        put_pins(alloc, &mut out, self.pins.as_slice())?;
        out.extend_from_slice(b"equations\n")?;
        put_lines(alloc, &mut out, self.lines.as_slice())?;
        out.extend_from_slice(b"end\n")?;
        Ok(out)
    }
}
