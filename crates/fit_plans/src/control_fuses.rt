//! The control fuses of a device, past its array.

ghost use Rattle.std.specs.Prelude.{◌≡◌, ◌<◌, ◌≤◌, ◌*◌, ℕ, None, Some, List, length, IfOk};
ghost use Rattle.fit_plans.specs.Prelude.{is_on, IsFixed, Switches, fuse_for};
ghost use Rattle.fit_plans.specs.declared.control_fuses.CellForm.{CellForm};
ghost use Rattle.fit_plans.specs.Controls.{IsBurned, IsControlLevel, IsFoundFor, IsNoCells, control_level, told_by};

use crate::plan::{Plan, planned, planned_fuses};
use pld_device::{Device, FuseBit, Loaded};
use std::alloc::{AllocError, Global};

/// What the control fuses of a cell are to say.
#[derive(Clone, Copy, PartialEq, Eq)]
pub struct CellForm {
    pub inverted: bool,
    pub registered: bool,
}

/// The level by which a control fuse says what is reported; None if it is another fuse, or there isn't one.
fn told(bit: Option<FuseBit>, fuse: u16, told: bool) -> Option<bool>
    ensures { result ≡ told_by bit fuse told }
{
    match bit {
        Some(found) if found.fuse == fuse => Some(if found.level { told } else { !told }),
        _ => None,
    }
}

/// The level of the fuse if it is a cell's.
fn cell_level<D: Device>(
    device: &Loaded<D>,
    plan: &Plan,
    forms: &[CellForm],
    fuse: u16,
) -> Option<bool>
    requires { length forms.now ≡ length D.table.cells }
    ensures found { IsFoundFor D.table (control_level D.table plan.now forms.now) fuse result }
    ensures none { result ≡ None → (c : ℕ) → c < length D.table.cells → IsNoCells D.table fuse c }
{
    for index in 0..device.cells() {
        let form = forms[index as usize];
        let inverted = told(device.inverted_at(index), fuse, form.inverted);
        if inverted.is_some() {
            return inverted;
        }
        let registered = told(device.registered_at(index), fuse, form.registered);
        if registered.is_some() {
            return registered;
        }
    }
    None
}

/// The level of the fuse if it switches a row on.
fn switch_level<D: Device>(device: &Loaded<D>, plan: &Plan, fuse: u16) -> Option<bool>
    ensures found { (forms : List CellForm) → IsFoundFor D.table (control_level D.table plan.now forms) fuse result }
    ensures none { result ≡ None → (row : ℕ) → row < D.table.rows → fuse_for D.table (Switches row) ≡ Some fuse → ⊥ }
{
    for row in 0..device.rows() {
        if device.row_switch(row) == Some(fuse) {
            return Some(planned::<D>(device, plan, row).is_some());
        }
    }
    None
}

/// How many fuses have a fixed level at most.
const FIXED: u16 = 16;

/// The level of the fuse if it is fixed.
fn fixed_level<D: Device>(device: &Loaded<D>, plan: &Plan, fuse: u16) -> Option<bool>
    ensures found { (forms : List CellForm) → IsFoundFor D.table (control_level D.table plan.now forms) fuse result }
    ensures none { result ≡ None → (index : ℕ) → index < 16 → fuse_for D.table (IsFixed index) ≡ Some fuse → ⊥ }
{
    for index in 0..FIXED {
        let level = told(device.fixed(index), fuse, true);
        if level.is_some() {
            return level;
        }
    }
    None
}

/// The level of a fuse past the array.
fn control_level<D: Device>(device: &Loaded<D>, plan: &Plan, forms: &[CellForm], fuse: u16) -> bool
    requires { length forms.now ≡ length D.table.cells }
    ensures { IsControlLevel D.table plan.now forms.now fuse result }
{
    if let Some(level) = cell_level::<D>(device, plan, forms, fuse) {
        return level;
    }
    if let Some(level) = switch_level::<D>(device, plan, fuse) {
        return level;
    }
    fixed_level::<D>(device, plan, fuse).unwrap_or(false)
}

/// The level of a fuse past the array; within it, 0.
fn level_past<D: Device>(device: &Loaded<D>, plan: &Plan, forms: &[CellForm], fuse: u16) -> bool
    requires { length forms.now ≡ length D.table.cells }
    ensures { D.table.columns * D.table.rows ≤ fuse → IsControlLevel D.table plan.now forms.now fuse result }
{
    fuse >= device.columns() * device.rows() && control_level::<D>(device, plan, forms, fuse)
}

/// The levels of all fuses past the array, after a 0 for each of its fuses.
fn control_levels<D: Device>(
    alloc: Global,
    device: &Loaded<D>,
    plan: &Plan,
    forms: &[CellForm],
) -> Result<Vec<bool>, AllocError>
    requires { length forms.now ≡ length D.table.cells }
    ensures size { IfOk result (λ levels. length levels.items ≡ D.table.fuses) }
    ensures levels { IfOk result (λ levels. (n : ℕ) → D.table.columns * D.table.rows ≤ n → n < D.table.fuses → IsControlLevel D.table plan.now forms.now n (is_on levels.items n)) }
{
    let mut levels = Vec::new(alloc);
    for number in 0..device.fuses() {
        levels.push(level_past::<D>(device, plan, forms, number))?;
    }
    Ok(levels)
}

/// The fuses of a device whose rows hold what the plan says, and whose cells have these forms, one a cell. A row that
/// may be switched is switched on if it holds a cube, fixed fuses have their level, and all others past the array are
/// 0.
pub fn device_fuses<D: Device>(
    alloc: Global,
    device: &Loaded<D>,
    plan: &Plan,
    forms: &[CellForm],
) -> Result<Vec<bool>, AllocError>
    requires { length forms.now ≡ length D.table.cells }
    ensures { IfOk result (λ fuses. IsBurned D.table plan.now forms.now fuses.items) }
{
    let levels = control_levels::<D>(alloc, device, plan, forms)?;
    let fuses = planned_fuses::<D>(alloc, device, plan, &levels)?;
    Ok(fuses)
}
