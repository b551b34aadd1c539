//! What the pins show at each vector of a run.

ghost use Rattle.std.specs.Prelude.{◌≡◌, ◌<◌, ◌≤◌, ◌^◌, IfOk, None, length, take};
ghost use Rattle.device_sim.specs.Prelude.{contents, device_logic, IsOrdered};
ghost use Rattle.device_sim.specs.Traced.{IsTraced};
ghost use Rattle.device_sim.specs.VectorSteps.{ShownAfter, all_chars_at};

use crate::chars::chars_of;
use crate::running::{has_register, point_of};
use device_logic::{SimFault, load};
use jedec_reader::FuseFile;
use pld_base::{ListOf, OutOfMemory, Trace, Vector};
use pld_device::{Device, Loaded};
use pld_machine::{Logic, trace};
use std::alloc::Global;

/// The first vectors, so many at most.
fn first_vectors(vectors: &[Vector], most: usize) -> &[Vector]
    ensures { result.now ≡ take most vectors.now }
{
    if vectors.len() <= most {
        vectors
    } else {
        vectors.split_at(most).0
    }
}

/// What each vector amounts to at the pins.
fn trace_vectors<L: Logic>(
    alloc: Global,
    logic: &L,
    pins: u8,
    default: bool,
    vectors: &[Vector],
) -> Result<Vec<Trace>, OutOfMemory>
    requires ordered { IsOrdered (L.meaning logic.now) }
    requires pins { pins ≤ 24 }
    ensures { IfOk result (λ list. ShownAfter (L.meaning logic.now) default None (all_chars_at pins vectors.now) list.items) }
{
    let stores = has_register(logic);
    let mut shown = Vec::new(alloc);
    let mut before = None;
    for vector in vectors {
        let at = point_of(logic, stores, before, chars_of(vector, pins), default);
        shown.push(trace(logic, &at))?;
        before = Some(at);
    }
    Ok(shown)
}

/// What each of the first vectors of a fuse file, so many at most, amounts to at the pins: the run is that of
/// `simulate`.
///
/// Characters that are not simulated drive nothing here.
pub fn traces<D: Device>(
    alloc: Global,
    device: &Loaded<D>,
    file: &FuseFile,
    most: usize,
) -> Result<ListOf<Trace>, SimFault>
    requires { length file.now.fuses ≡ D.table.fuses }
    ensures { IfOk result (λ list. IsTraced (device_logic D.table file.now.fuses) file.now.default_level (take most (contents D.table file.now).vectors) list) }
{
    let logic = load::<D>(alloc, device, &file.fuses)?;
    let vectors = first_vectors(file.vectors.as_slice(), most);
    let list = trace_vectors(alloc, &logic, device.pins(), file.default_level, vectors)?;
    Ok(ListOf::from_vec(list))
}
