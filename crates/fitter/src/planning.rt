//! The rows of all cells, by the covers that fit.

ghost use Rattle.std.specs.Prelude.{ℕ, ◌≡◌, ◌<◌, ◌≤◌, None, Some, get_or, length};
ghost use Rattle.fitter.specs.Planned.{AreNoRows, ArePlanned, ArePlannedAt, AreSingle};

use crate::cell_covering::CellCovers;
use crate::fault::FitFault;
use fit_plans::{CellForm, CellPlan, choose};
use pld_base::ListOf;
use pld_device::{Device, Loaded};
use std::alloc::Global;

/// A cell's rows and its form.
#[derive(Drop)]
pub(crate) struct CellRows {
    pub(crate) plan: CellPlan,
    pub(crate) form: CellForm,
}

/// The rows and the forms of all cells.
#[derive(Drop)]
pub(crate) struct AllRows {
    pub(crate) plans: Vec<CellPlan>,
    pub(crate) forms: Vec<CellForm>,
}

/// The rows of an assigned cell: those of its direct form if they fit its room, else those of the inverted one.
fn chosen_rows<D: Device>(
    device: &Loaded<D>,
    cell: u8,
    covers: CellCovers,
) -> Result<CellRows, FitFault>
    requires { cell < length D.table.cells }
    ensures { ArePlannedAt D.table cell (Some covers) result }
{
    let enable = covers.enable.first().copied();
    let registered = covers.wanted.registered;
    match choose(covers.tried, device.cell(cell).room as usize) {
        Ok(chosen) => Ok(CellRows {
            plan: CellPlan {
                enable,
                rows: ListOf::from_vec(chosen.rows),
            },
            form: CellForm {
                inverted: chosen.inverted,
                registered,
            },
        }),
        Err(tried) => Err(FitFault::TooManyProducts(cell, tried)),
    }
}

/// No rows, for a cell that is assigned nothing.
fn no_rows(alloc: Global) -> CellRows
    ensures { AreNoRows result }
{
    CellRows {
        plan: CellPlan {
            enable: None,
            rows: ListOf::from_vec(Vec::new(alloc)),
        },
        form: CellForm {
            inverted: true,
            registered: false,
        },
    }
}

/// The rows of a cell by its covers; no rows if it has none.
fn rows_of<D: Device>(
    alloc: Global,
    device: &Loaded<D>,
    cell: u8,
    covers: Option<CellCovers>,
) -> Result<CellRows, FitFault>
    requires { cell < length D.table.cells }
    ensures { ArePlannedAt D.table cell covers result }
{
    match covers {
        Some(found) => chosen_rows::<D>(device, cell, found),
        None => Ok(no_rows(alloc)),
    }
}

/// Takes the covers of a cell out of the list.
pub(crate) fn taken(left: &mut Vec<Option<CellCovers>>, cell: usize) -> Option<CellCovers>
    requires { cell < length left.old.items }
    ensures value { result ≡ get_or left.old.items cell None }
    ensures later { (d : ℕ) → cell < d → get_or left.new.items d None ≡ get_or left.old.items d None }
    ensures long { length left.new.items ≡ length left.old.items }
{
    left[cell].take()
}

/// The rows and forms of all cells, or the first cell whose covers do not fit.
pub(crate) fn plan_cells<D: Device>(
    alloc: Global,
    device: &Loaded<D>,
    covers: Vec<Option<CellCovers>>,
) -> Result<AllRows, FitFault>
    requires { length covers.items ≡ length D.table.cells }
    ensures { ArePlanned D.table covers.items result }
{
    let mut left = covers;
    let mut plans = Vec::new(alloc);
    let mut forms = Vec::new(alloc);
    for cell in 0..device.cells() {
        let found = taken(&mut left, cell as usize);
        let rows = rows_of::<D>(alloc, device, cell, found)?;
        plans.push(rows.plan)?;
        forms.push(rows.form)?;
    }
    Ok(AllRows { plans, forms })
}

/// Whether each enable has at most one row, or the first cell whose enable has more.
pub(crate) fn check_enables(covers: &[Option<CellCovers>]) -> Result<(), FitFault>
    requires { length covers.now ≤ 255 }
    ensures { AreSingle covers.now result }
{
    for cell in 0..covers.len() {
        if let Some(found) = &covers[cell] {
            if found.enable.len() > 1 {
                return Err(FitFault::EnableTooWide(cell as u8));
            }
        }
    }
    Ok(())
}
