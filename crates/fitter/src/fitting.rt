//! The whole fit: covers, shared controls, rows, fuses.

ghost use Rattle.std.specs.Prelude.{◌≡◌, ◌+◌, ◌<◌, IfOk, length};
ghost use Rattle.fitter.specs.Prelude.{device_logic, pin_complements, plain_netlist, IsSoundNetlist, logic_shown, values_shown};
ghost use Rattle.pld_machine.specs.Comparison.{DoesTheSame};
ghost use Rattle.fitter.specs.Answers.{FitAnswers};
ghost use Rattle.fitter.specs.Fitting.{IsBurnedPlan};
ghost use Rattle.fitter.specs.Planned.{EntriesBelow};

use crate::answer::{Fitted, FittedCell};
use crate::covering::cover_cells;
use crate::fault::FitFault;
use crate::masks::turn_mask;
use crate::planning::{AllRows, check_enables, plan_cells};
use crate::shared::{cell_wanted, pair_count};
use crate::shared_rows::{SharedRows, shared_rows};
use crate::sound_fit::SoundFit;
use crate::turning::{choice_mask, turned_plans, turned_row};
use bit_expr::Netlist;
use fit_plans::{Covering, Plan, Workspace, device_fuses};
use netlist_laws::fitted_runs;
use pld_base::ListOf;
use pld_device::{Device, Flip, Fuses, Loaded};
use std::alloc::{AllocError, Global};

/// Whether a pin is the complement of what the rows, or the register, give.
fn pin_complements(flip: Flip, registered: bool, inverted: bool) -> bool
    ensures { result ≡ pin_complements flip registered inverted }
{
    match flip {
        Flip::Always => true,
        Flip::AfterRegister => inverted,
        Flip::BeforeRegister => registered || inverted,
    }
}

/// Adds the entry of a cell, if it is assigned.
fn add_entry<D: Device>(
    alloc: Global,
    fit: &SoundFit<D>,
    rows: &AllRows,
    cell: u8,
    list: &mut Vec<FittedCell>,
) -> Result<(), AllocError>
    requires plans { cell < length rows.now.plans.items }
    requires forms { cell < length rows.now.forms.items }
    requires before { EntriesBelow D.table fit.now.over.net.now rows.now.plans.items rows.now.forms.items cell list.old.items }
    ensures { IfOk result (λ done. EntriesBelow D.table fit.now.over.net.now rows.now.plans.items rows.now.forms.items (cell + 1) list.new.items) }
{
    let Some(wanted) = cell_wanted(fit.over.net, cell) else {
        return Ok(());
    };
    let inverted = rows.forms[cell as usize].inverted;
    let cubes = Vec::from_slice(alloc, rows.plans[cell as usize].rows.as_slice())?;
    list.push(FittedCell {
        cell,
        inverted: pin_complements(fit.over.flip, wanted.registered, inverted),
        rows: ListOf::from_vec(cubes),
    })?;
    Ok(())
}

/// An entry for each assigned cell.
fn entries<D: Device>(
    alloc: Global,
    fit: &SoundFit<D>,
    rows: &AllRows,
) -> Result<Vec<FittedCell>, AllocError>
    requires plans { length rows.now.plans.items ≡ length D.table.cells }
    requires forms { length rows.now.forms.items ≡ length D.table.cells }
    ensures { IfOk result (λ list. EntriesBelow D.table fit.now.over.net.now rows.now.plans.items rows.now.forms.items (length D.table.cells) list.items) }
{
    let mut list = Vec::new(alloc);
    for cell in 0..fit.device.cells() {
        add_entry::<D>(alloc, fit, rows, cell, &mut list)?;
    }
    Ok(list)
}

/// The fuses of the rows, once these are turned where free registers store the complement.
fn burned<D: Device>(
    alloc: Global,
    fit: &SoundFit<D>,
    shared: SharedRows,
    rows: AllRows,
) -> Result<Fitted, AllocError>
    requires plans { length rows.plans.items ≡ length D.table.cells }
    requires forms { length rows.forms.items ≡ length D.table.cells }
    ensures { IfOk result (IsBurnedPlan D.table fit.now.over.net.now shared rows) }
{
    let choice = choice_mask::<D>(fit.device, fit.over.net, &rows.forms);
    let plans = turned_plans::<D>(alloc, fit.device, &rows.plans, choice)?;
    let turned = AllRows {
        plans,
        forms: rows.forms,
    };
    let cells = entries::<D>(alloc, fit, &turned)?;
    let plan = Plan {
        cells: ListOf::from_vec(turned.plans),
        reset: turned_row(shared.reset, choice),
        preset: turned_row(shared.preset, choice),
    };
    let fuses = device_fuses::<D>(alloc, fit.device, &plan, &turned.forms)?;
    Ok(Fitted {
        fuses: Fuses::from_levels(fuses),
        cells: ListOf::from_vec(cells),
    })
}

/// The fuses of a netlist in a device, and the rows of its cells: of each cell a prime and irredundant cover, in its direct
/// form if that may be and fits, else in its inverted one; a free register that is inverted stores the complement. It makes
/// one pool for all covers.
pub fn fit<'a, D: Device>(
    alloc: Global,
    device: &'a Loaded<D>,
    net: &'a Netlist,
) -> Result<Fitted, FitFault>
    requires sound { IsSoundNetlist D.table net.now }
    ensures answer { FitAnswers D.table net.now result }
    ensures does { IfOk result (λ fitted. DoesTheSame (device_logic D.table fitted.fuses)
        (logic_shown D.table fitted.fuses (plain_netlist net.now)) (values_shown D.table fitted.fuses (plain_netlist net.now))) }
{
    fitted_runs();
    let mut space = Workspace::new(alloc)?;
    let fit = SoundFit::<D> {
        over: Covering {
            net,
            flip: device.flip(),
            turned: turn_mask::<D>(device, net),
            vars: pair_count::<D>(device),
        },
        device,
    };
    let covers = cover_cells(&mut space, &fit, true)?;
    let shared = shared_rows(&mut space, &fit)?;
    check_enables(&covers)?;
    let rows = plan_cells::<D>(alloc, device, covers)?;
    let fitted = burned::<D>(alloc, &fit, shared, rows)?;
    Ok(fitted)
}
