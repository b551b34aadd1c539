//! Rows as products of literals.

ghost use Rattle.std.specs.Prelude.{◌≡◌, ◌+◌, ◌<◌, ◌≤◌, ◌++◌, IfOk, OnOk, length, map, filter};
ghost use Rattle.decompiler.specs.Prelude.{range_with_len, CarryInRange, is_live, control_products, named_by, product_of};
ghost use Rattle.decompiler.specs.Steps.{pair_literals};

use crate::device_fuses::DeviceFuses;
use decompiled::PinLiteral;
use device_logic::{carry_of, cell_of};
use pld_base::{ListOf, OutOfMemory};
use pld_device::{Carry, Cell, Device};
use std::alloc::Global;

impl<'a, D: Device> DeviceFuses<'a, D> {
    /// One of a pair's columns, by the name of its pin.
    fn literal(&self, higher: bool, pair: Carry) -> PinLiteral
        requires { CarryInRange D.table pair }
        ensures { result ≡ named_by D.table self.now higher pair }
    {
        match pair {
            Carry::Pin(pin) => PinLiteral {
                negated: higher,
                pin,
                of_q: false,
            },
            Carry::Cell(cell) => PinLiteral {
                negated: higher != self.stores(cell),
                pin: cell_of::<D>(self.device(), cell).pin,
                of_q: self.stores(cell),
            },
        }
    }

    /// Appends the literals of a pair's columns that are connected in a row.
    fn push_pair(
        &self,
        literals: &mut Vec<PinLiteral>,
        row: &[bool],
        pair: u16,
    ) -> Result<(), OutOfMemory>
        requires size { length row.now ≡ D.table.columns }
        requires pair { pair < length D.table.pairs }
        ensures { OnOk result (literals.new.items ≡ literals.old.items ++ pair_literals D.table self.now row.now pair) }
    {
        let carry = carry_of::<D>(self.device(), pair);
        if !row[usize::from(2 * pair)] {
            literals.push(self.literal(false, carry))?;
        }
        if !row[usize::from(2 * pair + 1)] {
            literals.push(self.literal(true, carry))?;
        }
        Ok(())
    }

    /// A row as a product.
    fn product(&self, alloc: Global, row: u16) -> Result<ListOf<PinLiteral>, OutOfMemory>
        requires { row < D.table.rows }
        ensures { IfOk result (λ product. product ≡ product_of D.table self.now row) }
    {
        let fuses = self.row(row);
        let mut literals = Vec::new(alloc);
        for pair in 0..self.device().columns() / 2 {
            self.push_pair(&mut literals, fuses, pair)?;
        }
        Ok(ListOf::from_vec(literals))
    }

    /// Appends a row as a product, if it can be true.
    fn push_if_live(
        &self,
        alloc: Global,
        products: &mut Vec<ListOf<PinLiteral>>,
        row: u16,
    ) -> Result<(), OutOfMemory>
        requires { row < D.table.rows }
        ensures { OnOk result (products.new.items ≡ products.old.items ++ control_products D.table self.now row) }
    {
        if self.is_live(row) {
            products.push(self.product(alloc, row)?)?;
        }
        Ok(())
    }

    /// A row as a sum: of one product, or of none.
    pub fn control_sum(
        &self,
        alloc: Global,
        row: u16,
    ) -> Result<ListOf<ListOf<PinLiteral>>, OutOfMemory>
        requires { row < D.table.rows }
        ensures { IfOk result (λ products. products ≡ control_products D.table self.now row) }
    {
        let mut products = Vec::new(alloc);
        self.push_if_live(alloc, &mut products, row)?;
        Ok(ListOf::from_vec(products))
    }

    /// The sum of a cell's data rows that can be true.
    pub fn data_sum(
        &self,
        alloc: Global,
        cell: &Cell,
    ) -> Result<ListOf<ListOf<PinLiteral>>, OutOfMemory>
        requires { cell.now.first + cell.now.room ≤ D.table.rows }
        ensures { IfOk result (λ products. products ≡ map (product_of D.table self.now)
            (filter (is_live D.table self.now) (range_with_len cell.now.first cell.now.room))) }
    {
        let mut products = Vec::new(alloc);
        for offset in 0..cell.room {
            self.push_if_live(alloc, &mut products, cell.first + u16::from(offset))?;
        }
        Ok(ListOf::from_vec(products))
    }
}
