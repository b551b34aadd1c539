//! A device's fuses, one by one and by what they say of rows and cells.

ghost use Rattle.std.specs.Prelude.{◌≡◌, ◌<◌, IfOk, IfSome, length};
ghost use Rattle.decompiler.specs.Prelude.{is_live, first_register, has_lines};
ghost use Rattle.pld_device.specs.Given.{never_drives};
ghost use Rattle.pld_device.specs.Registers.{is_inverted, stores};
ghost use Rattle.pld_device.specs.Rows.{row_fuses};

use device_logic::{FuseArray, cell_of};
use pld_base::OutOfMemory;
use pld_device::{Device, Enable, Fuses, Loaded};
use std::alloc::Global;
use std::marker::Model;

/// The fuses of a device; contracts see their levels.
#[derive(Drop)]
pub struct DeviceFuses<'a, D: Device> {
    device: &'a Loaded<D>,
    levels: Vec<bool>,
    array: FuseArray<'a, D>,
}

impl<'a, D: Device> Model for DeviceFuses<'a, D> {
    ghost use Rattle.std.specs.Prelude.{List, Bool};
    ghost use Rattle.decompiler.specs.Steps.{AreFuses};

    ghost Value = { List Bool };

    ghost view = { λ f. f.levels.items };

    ghost invariant = { λ f. AreFuses D.table f.levels.items f.array };
}

impl<'a, D: Device> DeviceFuses<'a, D> {
    /// These fuses.
    pub fn new(
        alloc: Global,
        device: &'a Loaded<D>,
        fuses: &Fuses,
    ) -> Result<DeviceFuses<'a, D>, OutOfMemory>
        requires { length fuses.now ≡ D.table.fuses }
        ensures { IfOk result (λ f. f ≡ fuses.now) }
    {
        let array = FuseArray::new(alloc, device, fuses)?;
        let levels = fuses.levels().to_vec(alloc)?;
        Ok(DeviceFuses {
            device,
            levels,
            array,
        })
    }

    /// The device.
    pub fn device(&self) -> &'a Loaded<D> {
        self.device
    }

    /// The fuses of a row, one a column: an intact one, 0, connects the column.
    pub fn row(&self, row: u16) -> &[bool]
        requires { row < D.table.rows }
        ensures fuses { result.now ≡ row_fuses D.table self.now row }
        ensures size { length result.now ≡ D.table.columns }
    {
        let first = usize::from(self.device().columns()) * usize::from(row);
        &self.levels[first..first + usize::from(self.device().columns())]
    }

    /// Whether the row can be true, as far as its own fuses say.
    pub fn is_live(&self, row: u16) -> bool
        requires { row < D.table.rows }
        ensures { result ≡ is_live D.table self.now row }
    {
        self.array.is_live(row)
    }

    /// Whether the cell is a register.
    pub fn stores(&self, cell: u8) -> bool
        requires { cell < length D.table.cells }
        ensures { result ≡ stores D.table self.now cell }
    {
        self.array.stores(cell)
    }

    /// Whether the cell's control fuse says inverted.
    pub fn is_inverted(&self, cell: u8) -> bool
        requires { cell < length D.table.cells }
        ensures { result ≡ is_inverted D.table self.now cell }
    {
        self.array.is_inverted(cell)
    }

    /// Whether the cell never drives its pin.
    fn never_drives(&self, cell: u8) -> bool
        requires { cell < length D.table.cells }
        ensures { result ≡ never_drives D.table self.now cell }
    {
        match cell_of::<D>(self.device(), cell).enable {
            Enable::Row(row) => !self.is_live(row),
            Enable::PinLow(_) | Enable::Driven => false,
            Enable::Released => true,
        }
    }

    /// Whether the source has lines on the cell.
    pub fn has_lines(&self, cell: u8) -> bool
        requires { cell < length D.table.cells }
        ensures { result ≡ has_lines D.table self.now cell }
    {
        self.stores(cell) || !self.never_drives(cell)
    }

    /// The first cell that is a register.
    pub fn first_register(&self) -> Option<u8>
        ensures first { result ≡ first_register D.table self.now }
        ensures within { IfSome result (λ c. c < length D.table.cells) }
    {
        for cell in 0..self.device().cells() {
            if self.stores(cell) {
                return Some(cell);
            }
        }
        None
    }
}
