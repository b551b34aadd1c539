//! The list of fuses, fuse by fuse.

ghost use Rattle.std.specs.Prelude.{◌≡◌, ◌*◌, ◌<◌, ◌≤◌, length, get_or, IfOk, None, false};
ghost use Rattle.fit_plans.specs.RowCubes.{fuse_at};
ghost use Rattle.fit_plans.specs.FuseLists.{planned_fuse, fuse_level, fuses_of};

use covers::Cube;
use pld_device::{Device, Loaded};
use std::alloc::{AllocError, Global};

/// The fuse of a column in the row of a cube.
fn cube_fuse(cube: Cube, column: u16) -> bool
    requires { column < 64 }
    ensures { result ≡ fuse_at cube column }
{
    let asked = if column % 2 == 0 { cube.yes } else { cube.no };
    asked >> (column / 2) & 1 == 0
}

/// The fuse of a column in a row that holds a cube, or nothing.
fn row_fuse(plan: Option<Cube>, column: u16) -> bool
    requires { column < 64 }
    ensures { result ≡ planned_fuse plan column }
{
    match plan {
        Some(cube) => cube_fuse(cube, column),
        None => false,
    }
}

/// The level of a fuse, by what its row is to hold, or past the array by itself.
fn fuse<D: Device>(device: &Loaded<D>, plan: &[Option<Cube>], control: &[bool], fuse: u16) -> bool
    requires fuse { fuse < D.table.fuses }
    requires rows { length plan.now ≡ D.table.rows }
    requires control { length control.now ≡ D.table.fuses }
    ensures { result ≡ fuse_level D.table (λ row. get_or plan.now row None) (λ n. get_or control.now n false) fuse }
{
    if fuse < device.columns() * device.rows() {
        row_fuse(
            plan[(fuse / device.columns()) as usize],
            fuse % device.columns(),
        )
    } else {
        control[fuse as usize]
    }
}

/// The fuses of a device whose rows hold these cubes; those past the array have the levels of `control`.
pub(crate) fn burn<D: Device>(
    alloc: Global,
    device: &Loaded<D>,
    plan: &[Option<Cube>],
    control: &[bool],
) -> Result<Vec<bool>, AllocError>
    requires rows { length plan.now ≡ D.table.rows }
    requires control { length control.now ≡ D.table.fuses }
    ensures { IfOk result (λ fuses. fuses.items ≡ fuses_of D.table (λ row. get_or plan.now row None) (λ n. get_or control.now n false)) }
{
    let mut fuses = Vec::new(alloc);
    for number in 0..device.fuses() {
        fuses.push(fuse::<D>(device, plan, control, number))?;
    }
    Ok(fuses)
}
