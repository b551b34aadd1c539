//! The lines of cells.

ghost use Rattle.std.specs.Prelude.{◌≡◌, ◌<◌, ◌++◌, IfOk, IfSome, OnOk, length};
ghost use Rattle.decompiler.specs.Prelude.{data_complements, pin_complements, cell_at, cell_lines, data_line, enable_lines, first_register, is_complement, lines_of, shared_lines};

use crate::device_fuses::DeviceFuses;
use abel_tree::Extension;
use decompiled::SumLine;
use device_logic::cell_of;
use pld_base::OutOfMemory;
use pld_device::{Device, Enable, Flip};
use std::alloc::Global;

/// Whether the pin has the complement of a cell's output.
pub fn pin_complements(flip: Flip, is_register: bool, inverted: bool) -> bool
    ensures { result ≡ pin_complements flip is_register inverted }
{
    match flip {
        Flip::Always => true,
        Flip::AfterRegister => inverted,
        Flip::BeforeRegister => is_register || inverted,
    }
}

/// Whether a register takes the complement of its data.
fn data_complements(flip: Flip, inverted: bool) -> bool
    ensures { result ≡ data_complements flip inverted }
{
    match flip {
        Flip::Always | Flip::AfterRegister => false,
        Flip::BeforeRegister => !inverted,
    }
}

impl<'a, D: Device> DeviceFuses<'a, D> {
    /// Whether a cell's data line assigns the complement of the sum.
    fn is_complement(&self, cell: u8) -> bool
        requires { cell < length D.table.cells }
        ensures { result ≡ is_complement D.table self.now cell }
    {
        let inverted = self.is_inverted(cell);
        if self.stores(cell) {
            data_complements(self.device().flip(), inverted)
        } else {
            pin_complements(self.device().flip(), false, inverted)
        }
    }

    /// A cell's data line.
    fn data_line(&self, alloc: Global, cell: u8) -> Result<SumLine, OutOfMemory>
        requires { cell < length D.table.cells }
        ensures { IfOk result (λ line. line ≡ data_line D.table self.now cell) }
    {
        let found = cell_of::<D>(self.device(), cell);
        let products = self.data_sum(alloc, &found)?;
        Ok(SumLine {
            negated: self.is_complement(cell),
            pin: found.pin,
            extension: if self.stores(cell) {
                Some(Extension::D)
            } else {
                None
            },
            products,
        })
    }

    /// Appends a cell's enable line, if a row enables it.
    fn push_enable(
        &self,
        alloc: Global,
        lines: &mut Vec<SumLine>,
        cell: u8,
    ) -> Result<(), OutOfMemory>
        requires { cell < length D.table.cells }
        ensures { OnOk result (lines.new.items
            ≡ lines.old.items ++ enable_lines D.table self.now cell (cell_at D.table cell).enable) }
    {
        let found = cell_of::<D>(self.device(), cell);
        if let Enable::Row(row) = found.enable {
            lines.push(SumLine {
                negated: false,
                pin: found.pin,
                extension: Some(Extension::Oe),
                products: self.control_sum(alloc, row)?,
            })?;
        }
        Ok(())
    }

    /// Appends a cell's lines, if it has some.
    fn push_cell(
        &self,
        alloc: Global,
        lines: &mut Vec<SumLine>,
        cell: u8,
    ) -> Result<(), OutOfMemory>
        requires { cell < length D.table.cells }
        ensures { OnOk result (lines.new.items ≡ lines.old.items ++ cell_lines D.table self.now cell) }
    {
        if self.has_lines(cell) {
            lines.push(self.data_line(alloc, cell)?)?;
            self.push_enable(alloc, lines, cell)?;
        }
        Ok(())
    }

    /// Appends the line of a row of all registers, if there is one that can be true, and a register.
    fn push_shared(
        &self,
        alloc: Global,
        lines: &mut Vec<SumLine>,
        extension: Extension,
        row: Option<u16>,
    ) -> Result<(), OutOfMemory>
        requires { IfSome row (λ r. r < D.table.rows) }
        ensures { OnOk result (lines.new.items
            ≡ lines.old.items ++ shared_lines D.table self.now extension (first_register D.table self.now) row) }
    {
        if let (Some(cell), Some(row)) = (self.first_register(), row) {
            if self.is_live(row) {
                lines.push(SumLine {
                    negated: false,
                    pin: cell_of::<D>(self.device(), cell).pin,
                    extension: Some(extension),
                    products: self.control_sum(alloc, row)?,
                })?;
            }
        }
        Ok(())
    }

    /// The lines of all cells in their order, then those of the reset and the preset.
    pub fn lines(&self, alloc: Global) -> Result<Vec<SumLine>, OutOfMemory>
        ensures { IfOk result (λ lines. lines.items ≡ lines_of D.table self.now) }
    {
        let mut lines = Vec::new(alloc);
        for cell in 0..self.device().cells() {
            self.push_cell(alloc, &mut lines, cell)?;
        }
        self.push_shared(alloc, &mut lines, Extension::Ar, self.device().reset())?;
        self.push_shared(alloc, &mut lines, Extension::Sp, self.device().preset())?;
        Ok(lines)
    }
}
