//! The pins that lines name.

ghost use Rattle.std.specs.Prelude.{◌≡◌, ◌<◌, ◌++◌, IfOk, IfSome, OnOk, length, map, filter};
ghost use Rattle.decompiler.specs.Prelude.{list_any, range_with_len, is_register_on, names_pin, pin_line, product_names, register_on};
ghost use Rattle.decompiler.specs.Steps.{pin_if_named};

use crate::device_fuses::DeviceFuses;
use crate::lines::pin_complements;
use decompiled::{PinLine, PinLiteral, SumLine};
use device_logic::cell_of;
use pld_base::{ListOf, OutOfMemory};
use pld_device::Device;
use std::alloc::Global;

/// Whether the product has a literal of the pin.
fn product_names(product: &ListOf<PinLiteral>, pin: u8) -> bool
    ensures { result ≡ product_names pin product.now }
{
    product.as_slice().iter().any(|literal| literal.pin == pin)
}

/// Whether some product has a literal of the pin.
fn sum_names(products: &[ListOf<PinLiteral>], pin: u8) -> bool
    ensures { result ≡ list_any (product_names pin) products.now }
{
    products.iter().any(|product| product_names(product, pin))
}

/// Whether the line names the pin.
fn names_pin(line: &SumLine, pin: u8) -> bool
    ensures { result ≡ names_pin pin line.now }
{
    line.pin == pin || sum_names(line.products.as_slice(), pin)
}

/// Whether some line names the pin.
fn some_names(lines: &[SumLine], pin: u8) -> bool
    ensures { result ≡ list_any (names_pin pin) lines.now }
{
    lines.iter().any(|line| names_pin(line, pin))
}

impl<'a, D: Device> DeviceFuses<'a, D> {
    /// Whether the cell is a register on the pin.
    fn is_register_on(&self, pin: u8, cell: u8) -> bool
        requires { cell < length D.table.cells }
        ensures { result ≡ is_register_on D.table self.now pin cell }
    {
        cell_of::<D>(self.device(), cell).pin == pin && self.stores(cell)
    }

    /// The register on a pin.
    fn register_on(&self, pin: u8) -> Option<u8>
        ensures first { result ≡ register_on D.table self.now pin }
        ensures within { IfSome result (λ c. c < length D.table.cells) }
    {
        for cell in 0..self.device().cells() {
            if self.is_register_on(pin, cell) {
                return Some(cell);
            }
        }
        None
    }

    /// The declaration of a pin.
    fn pin_line(&self, pin: u8) -> PinLine
        ensures { result ≡ pin_line D.table self.now pin }
    {
        let follows = match self.register_on(pin) {
            None => None,
            Some(cell) => Some(!pin_complements(
                self.device().flip(),
                true,
                self.is_inverted(cell),
            )),
        };
        PinLine { pin, follows }
    }

    /// Appends the declaration of a pin that some line names.
    fn push_if_named(
        &self,
        pins: &mut Vec<PinLine>,
        lines: &[SumLine],
        pin: u8,
    ) -> Result<(), OutOfMemory>
        ensures { OnOk result (pins.new.items ≡ pins.old.items ++ pin_if_named D.table self.now lines.now pin) }
    {
        if some_names(lines, pin) {
            pins.push(self.pin_line(pin))?;
        }
        Ok(())
    }

    /// The declarations of the pins that some line names.
    pub fn pins(&self, alloc: Global, lines: &[SumLine]) -> Result<Vec<PinLine>, OutOfMemory>
        ensures { IfOk result (λ pins. pins.items ≡ map (pin_line D.table self.now)
            (filter (λ pin. list_any (names_pin pin) lines.now) (range_with_len 1 D.table.pins))) }
    {
        let mut pins = Vec::new(alloc);
        for before in 0..self.device().pins() {
            self.push_if_named(&mut pins, lines, before + 1)?;
        }
        Ok(pins)
    }
}
