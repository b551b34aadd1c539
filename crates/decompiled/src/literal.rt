//! Literals: what a column of an array carries, by the name of its pin.

ghost use Rattle.std.specs.Prelude.{◌≡◌, ◌++◌, OnOk};
ghost use Rattle.decompiled.specs.SourceText.{extension_text, literal_text, name_text, q_if, sign_text};

use abel_tree::Extension;
use pld_base::{OutOfMemory, put_decimal};
use std::alloc::Global;

/// The level of a pin, or with `of_q` the Q of the register there; its complement if it is negated.
#[derive(Clone, Copy, PartialEq, Eq)]
pub struct PinLiteral {
    pub negated: bool,
    pub pin: u8,
    pub of_q: bool,
}

/// Appends the `!` of what is negated.
pub fn put_sign(out: &mut Vec<u8>, negated: bool) -> Result<(), OutOfMemory>
    ensures { OnOk result (out.new.items ≡ out.old.items ++ sign_text negated) }
{
    if negated {
        out.push(b'!')?;
    }
    Ok(())
}

/// Appends the name of a pin.
pub fn put_name(alloc: Global, out: &mut Vec<u8>, pin: u8) -> Result<(), OutOfMemory>
    ensures { OnOk result (out.new.items ≡ out.old.items ++ name_text pin) }
{
    out.push(b'p')?;
    put_decimal(alloc, out, usize::from(pin))
}

/// Appends an extension after a name, if there is one.
pub fn put_extension(out: &mut Vec<u8>, extension: Option<Extension>) -> Result<(), OutOfMemory>
    ensures { OnOk result (out.new.items ≡ out.old.items ++ extension_text extension) }
{
    let text: &[u8] = match extension {
        None => b"",
        Some(Extension::Clk) => b".CLK",
        Some(Extension::Oe) => b".OE",
        Some(Extension::Ar) => b".AR",
        Some(Extension::Sp) => b".SP",
        Some(Extension::D) => b".D",
        Some(Extension::Q) => b".Q",
        Some(Extension::Fb) => b".FB",
        Some(Extension::Pin) => b".PIN",
    };
    out.extend_from_slice(text)?;
    Ok(())
}

/// The extension of a name that represents a register's Q, or none.
fn q_if(of_q: bool) -> Option<Extension>
    ensures { result ≡ q_if of_q }
{
    if of_q { Some(Extension::Q) } else { None }
}

impl PinLiteral {
    /// Appends it as ABEL writes it.
    pub fn put(&self, alloc: Global, out: &mut Vec<u8>) -> Result<(), OutOfMemory>
        ensures { OnOk result (out.new.items ≡ out.old.items ++ literal_text self.now) }
    {
        put_sign(out, self.negated)?;
        put_name(alloc, out, self.pin)?;
        put_extension(out, q_if(self.of_q))
    }
}
