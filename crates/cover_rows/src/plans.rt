//! The fuses of a small plan in the sample device.

use covers::Cube;
use fit_plans::{CellForm, CellPlan, Plan, device_fuses, planned_fuses};
use pld_base::ListOf;
use pld_device::{Sample, load};
use std::alloc::{AllocError, Global};
use test_rows::Found;

fn cell(alloc: Global, enable: Option<Cube>, row: Cube) -> Result<CellPlan, AllocError> {
    Ok(CellPlan {
        enable,
        rows: ListOf::from_vec(Vec::from_slice(alloc, &[row])?),
    })
}

/// Reset by pin 2; cell 0 is always enabled, and its first data row is pin 1; the row of cell 1 is not its own Q and not
/// pin 1; no preset.
fn plan(alloc: Global) -> Result<Plan, AllocError> {
    let always = Cube { yes: 0, no: 0 };
    let mut cells = Vec::with_capacity(alloc, 2)?;
    cells.push(cell(alloc, Some(always), Cube { yes: 1, no: 0 })?)?;
    cells.push(cell(alloc, None, Cube { yes: 0, no: 9 })?)?;
    Ok(Plan {
        cells: ListOf::from_vec(cells),
        reset: Some(Cube { yes: 4, no: 0 }),
        preset: None,
    })
}

/// A direct register and an inverted combinational cell.
const FORMS: [CellForm; 2] = [
    CellForm {
        inverted: false,
        registered: true,
    },
    CellForm {
        inverted: true,
        registered: false,
    },
];

/// The fuses of the plan, past the array those that are given.
fn fuses_over_ones(alloc: Global) -> Result<Vec<bool>, AllocError> {
    let control = vec![in alloc; true; 60]?;
    planned_fuses::<Sample>(
        alloc,
        &load::<Sample, Sample>(&Sample),
        &plan(alloc)?,
        &control,
    )
}

/// The fuses of the plan, past the array those of the forms of the cells.
fn fuses_of_forms(alloc: Global) -> Result<Vec<bool>, AllocError> {
    device_fuses::<Sample>(
        alloc,
        &load::<Sample, Sample>(&Sample),
        &plan(alloc)?,
        &FORMS,
    )
}

/// Fuses in rows of eight columns, and after the array of six rows without a part.
fn put_levels(fuses: &[bool], found: &mut Found) {
    for (place, fuse) in fuses.iter().enumerate() {
        if place > 0 && place <= 48 && place % 8 == 0 {
            found.text(" ");
        }
        found.text(if *fuse { "1" } else { "0" });
    }
}

/// The fuses of the plan.
pub(crate) fn put_fuses(alloc: Global, text: &str, found: &mut Found) -> Option<()> {
    let fuses = match text {
        "over fuses that are all 1" => fuses_over_ones(alloc),
        _ => fuses_of_forms(alloc),
    };
    put_levels(fuses.ok()?.as_slice(), found);
    Some(())
}
