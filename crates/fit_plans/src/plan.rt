//! What each row of a device is to hold.

ghost use Rattle.std.specs.Prelude.{◌≡◌, ◌<◌, length, map, IfOk};
ghost use Rattle.fit_plans.specs.Prelude.{range_with_len};
ghost use Rattle.fit_plans.specs.Owners.{cube_for, enables, is_data, owner, planned};
ghost use Rattle.fit_plans.specs.Planned.{IsPlanned};

use crate::burning::burn;
use covers::Cube;
use pld_base::ListOf;
use pld_device::{Cell, Device, Enable, Loaded};
use std::alloc::{AllocError, Global};

/// What a row is for: data of a cell, by its place among these, its enable, or the reset or preset of all cells.
#[derive(Clone, Copy)]
pub(crate) enum Owner {
    Data(u8, u16),
    Enabling(u8),
    Reset,
    Preset,
    Nobody,
}

/// What the rows of a cell are to hold: its enable row a cube or nothing, and its data rows the cubes, in their order, and past
/// these nothing.
#[derive(Drop)]
pub struct CellPlan {
    pub enable: Option<Cube>,
    pub rows: ListOf<Cube>,
}

/// What the rows of a device are to hold, by its cells; a cell past the list's end holds nothing.
#[derive(Drop)]
pub struct Plan {
    pub cells: ListOf<CellPlan>,
    pub reset: Option<Cube>,
    pub preset: Option<Cube>,
}

fn is_data(cell: Cell, row: u16) -> bool
    ensures { result ≡ is_data cell row }
{
    cell.first <= row && row - cell.first < cell.room as u16
}

fn enables(cell: Cell, row: u16) -> bool
    ensures { result ≡ enables cell row }
{
    match cell.enable {
        Enable::Row(enabling) => enabling == row,
        Enable::PinLow(_) | Enable::Driven | Enable::Released => false,
    }
}

/// Whose the row is.
fn owner_of<D: Device>(device: &Loaded<D>, row: u16) -> Owner
    ensures { result ≡ owner D.table row }
{
    for index in 0..device.cells() {
        let cell = device.cell(index);
        if is_data(cell, row) {
            return Owner::Data(index, row - cell.first);
        }
        if enables(cell, row) {
            return Owner::Enabling(index);
        }
    }
    if device.reset() == Some(row) {
        Owner::Reset
    } else if device.preset() == Some(row) {
        Owner::Preset
    } else {
        Owner::Nobody
    }
}

/// What a row of that owner is to hold.
fn cube_for(plan: &Plan, owner: Owner) -> Option<Cube>
    ensures { result ≡ cube_for plan.now owner }
{
    match owner {
        Owner::Data(cell, place) => match plan.cells.as_slice().get(cell as usize) {
            Some(found) => found.rows.as_slice().get(place as usize).copied(),
            None => None,
        },
        Owner::Enabling(cell) => match plan.cells.as_slice().get(cell as usize) {
            Some(found) => found.enable,
            None => None,
        },
        Owner::Reset => plan.reset,
        Owner::Preset => plan.preset,
        Owner::Nobody => None,
    }
}

/// What a row is to hold. Takes no memory.
pub(crate) fn planned<D: Device>(device: &Loaded<D>, plan: &Plan, row: u16) -> Option<Cube>
    ensures { result ≡ planned D.table plan.now row }
{
    cube_for(plan, owner_of::<D>(device, row))
}

/// What each row is to hold.
fn plan_rows<D: Device>(
    alloc: Global,
    device: &Loaded<D>,
    plan: &Plan,
) -> Result<Vec<Option<Cube>>, AllocError>
    ensures { IfOk result (λ rows. rows.items ≡ map (planned D.table plan.now) (range_with_len 0 D.table.rows)) }
{
    let mut rows = Vec::new(alloc);
    for row in 0..device.rows() {
        rows.push(planned::<D>(device, plan, row))?;
    }
    Ok(rows)
}

/// The fuses of a device whose rows hold what the plan says: 0 if a cube asks for what a column carries, and a row that
/// holds nothing is all 0. The fuses past the array are those of `control`.
pub fn planned_fuses<D: Device>(
    alloc: Global,
    device: &Loaded<D>,
    plan: &Plan,
    control: &[bool],
) -> Result<Vec<bool>, AllocError>
    requires { length control.now ≡ D.table.fuses }
    ensures { IfOk result (λ fuses. IsPlanned D.table plan.now control.now fuses.items) }
{
    let rows = plan_rows::<D>(alloc, device, plan)?;
    let fuses = burn::<D>(alloc, device, &rows, control)?;
    Ok(fuses)
}
