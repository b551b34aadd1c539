//! The array of a device with its fuses: which rows can be true and what they read, and what its cells are.

ghost use Rattle.std.specs.Prelude.{◌≡◌, ◌<◌, length, IfOk, IfSome};
ghost use Rattle.device_logic.specs.Prelude.{row_reads, is_inverted, says, stores};
ghost use Rattle.device_logic.specs.Array.{is_live};

use crate::lookups::cell_of;
use crate::rows::{is_connected, live_rows};
use pld_base::OutOfMemory;
use pld_device::{Device, FuseBit, Fuses, Kinds, Loaded};
use std::alloc::Global;
use std::marker::Model;

/// The fuses of a device, with the rows that can be true; contracts see the fuses.
#[derive(Drop)]
pub struct FuseArray<'a, D: Device> {
    fuses: Vec<bool>,
    live: Vec<bool>,
    device: &'a Loaded<D>,
}

impl<'a, D: Device> Model for FuseArray<'a, D> {
    ghost use Rattle.std.specs.Prelude.{List, Bool};
    ghost use Rattle.device_logic.specs.Array.{IsArray};

    ghost Value = { List Bool };

    ghost view = { λ a. a.fuses.items };

    ghost invariant = { λ a. IsArray D.table a.fuses.items a.live.items };
}

impl<'a, D: Device> FuseArray<'a, D> {
    /// The array with these fuses.
    pub fn new(
        alloc: Global,
        device: &'a Loaded<D>,
        fuses: &Fuses,
    ) -> Result<FuseArray<'a, D>, OutOfMemory>
        requires { length fuses.now ≡ D.table.fuses }
        ensures { IfOk result (λ a. a ≡ fuses.now) }
    {
        let live = live_rows::<D>(alloc, device, fuses.levels())?;
        let fuses = fuses.levels().to_vec(alloc)?;
        Ok(FuseArray {
            fuses,
            live,
            device,
        })
    }

    /// The device.
    pub fn device(&self) -> &'a Loaded<D> {
        self.device
    }

    /// Whether the row can be true, as far as its own fuses say.
    pub fn is_live(&self, row: u16) -> bool
        requires { row < D.table.rows }
        ensures live { result ≡ is_live D.table self.now row }
        ensures size { length self.now ≡ D.table.fuses }
    {
        self.live[usize::from(row)]
    }

    /// Whether the row reads the pair.
    pub fn row_reads(&self, row: u16, pair: u16) -> bool
        requires row { row < D.table.rows }
        requires pair { pair < length D.table.pairs }
        ensures { result ≡ row_reads D.table self.now row pair }
    {
        self.is_live(row) && is_connected::<D>(self.device, &self.fuses, row, pair)
    }

    /// Whether a control fuse that is there has the level that it means.
    fn says(&self, bit: Option<FuseBit>) -> bool
        requires { IfSome bit (λ b. b.fuse < D.table.fuses) }
        ensures { result ≡ says self.now bit }
    {
        match bit {
            None => false,
            Some(bit) => self.fuses[usize::from(bit.fuse)] == bit.level,
        }
    }

    /// Whether the cell is a register.
    pub fn stores(&self, cell: u8) -> bool
        requires { cell < length D.table.cells }
        ensures { result ≡ stores D.table self.now cell }
    {
        match cell_of::<D>(self.device, cell).kinds {
            Kinds::Combinational => false,
            Kinds::Registered => true,
            Kinds::Either => self.says(self.device.registered_at(cell)),
        }
    }

    /// Whether the cell's control fuse says inverted.
    pub fn is_inverted(&self, cell: u8) -> bool
        requires { cell < length D.table.cells }
        ensures { result ≡ is_inverted D.table self.now cell }
    {
        self.says(self.device.inverted_at(cell))
    }
}
