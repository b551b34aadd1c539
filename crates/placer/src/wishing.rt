//! The pins that each signal may have, the most preferred one first.

ghost use Rattle.std.specs.Prelude.{◌≡◌, ◌<◌, ◌≤◌, ◌&&◌, ℕ, Bool, List, All, IfOk, length, map, get_or};
ghost use Rattle.placer.specs.Prelude.{bits, is_on, Entry, view_declared, no_name};
ghost use Rattle.placer.specs.Marks.{HasMarks};
ghost use Rattle.placer.specs.Signals.{is_pin_free, pin_fits, wish};
ghost use Rattle.placer.specs.Wanted.{AreFree};

use crate::fitting::{free_pins, pin_fits};
use crate::preferring::preferred;
use abel_tree::Declared;
use pin_matching::Wish;
use pld_base::{OutOfMemory, level_at};
use pld_device::{Device, Loaded};
use std::alloc::Global;

/// Whether the pin is among the first 32, and marked.
fn is_marked(marks: u32, pin: u8) -> bool
    ensures { result ≡ is_on (bits 32 marks) pin }
{
    pin < 32 && level_at(marks, pin)
}

/// Whether the pin is free and fits.
fn is_wanted<D: Device>(
    device: &Loaded<D>,
    declared: &Declared,
    free: u32,
    read: bool,
    pin: u8,
) -> bool
    ensures { (es : List Entry) → AreFree D.table es free → result ≡ (is_pin_free D.table es pin && pin_fits D.table read (view_declared declared.now) pin) }
{
    is_marked(free, pin) && pin_fits::<D>(device, declared, read, pin)
}

/// The free pins that fit a signal, the most preferred one first.
fn wish_of<D: Device>(
    alloc: Global,
    device: &Loaded<D>,
    declared: &Declared,
    free: u32,
    read: bool,
) -> Result<Wish, OutOfMemory>
    ensures { IfOk result (λ w. (es : List Entry) → AreFree D.table es free → w ≡ wish D.table es read (view_declared declared.now)) }
{
    let pins = preferred::<D>(alloc, device, declared.assigned)?;
    let mut list = Vec::new(alloc);
    for pin in pins.as_slice() {
        if is_wanted::<D>(device, declared, free, read, *pin) {
            list.push(u32::from(*pin))?;
        }
    }
    Ok(Wish::new(list))
}

/// Those of signals, given by their numbers; `read` has bit k if the signal at place k is read.
pub(crate) fn wishes_of<D: Device>(
    alloc: Global,
    device: &Loaded<D>,
    names: &[Declared],
    signals: &[usize],
    read: u32,
) -> Result<Vec<Wish>, OutOfMemory>
    requires inside { All (λ s. s < length names.now) signals.now }
    requires few { length signals.now ≤ 32 }
    ensures { IfOk result (λ v. (is_read : ℕ → Bool) → HasMarks signals.now is_read read → v.items ≡ map (λ s. wish D.table (map view_declared names.now) (is_read s) (get_or (map view_declared names.now) s no_name)) signals.now) }
{
    let free = free_pins::<D>(device, names);
    let mut wishes = Vec::new(alloc);
    for (place, signal) in signals.iter().enumerate() {
        let is_read = level_at(read, place as u8);
        let wish = wish_of::<D>(alloc, device, &names[*signal], free, is_read)?;
        wishes.push(wish)?;
    }
    Ok(wishes)
}
