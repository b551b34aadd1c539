//! The devices that have the same array, by their names.

ghost use Rattle.std.specs.Prelude.{◌≡◌, ◌≢◌, IfSome, None, Some, false, true};
ghost use Rattle.devices.specs.Models.{table_at};
ghost use Rattle.fuse_porting.specs.Pairs.{ArePair, HasNoPair, IsPair, counterpart_of, replacing};
ghost use Rattle.pld_base.specs.declared.model.Model.{Model};

use pld_base::{DeviceName, Model};

/// Two devices, each in a mode in which it has the array of the other.
#[derive(Clone, Copy)]
pub struct Pair {
    pub from: Model,
    pub to: Model,
}

/// By cell, from the top pin on, the registers of a PAL16R4 and a PAL20R4; of a PAL16R6 and a PAL20R6; of a PAL16R8 and a PAL20R8.
const FOUR: [bool; 8] = [false, false, true, true, true, true, false, false];

const SIX: [bool; 8] = [false, true, true, true, true, true, true, false];

const EIGHT: [bool; 8] = [true; 8];

/// The device without modes that has the array of this one. Takes no memory.
pub fn counterpart_of(device: DeviceName) -> Option<DeviceName>
    ensures { result ≡ counterpart_of device }
{
    match device {
        DeviceName::P16L8 => Some(DeviceName::GAL16V8C),
        DeviceName::P16R4 => Some(DeviceName::GAL16V8R4),
        DeviceName::P16R6 => Some(DeviceName::GAL16V8R6),
        DeviceName::P16R8 => Some(DeviceName::GAL16V8R8),
        DeviceName::GAL16V8C => Some(DeviceName::P16L8),
        DeviceName::GAL16V8R4 => Some(DeviceName::P16R4),
        DeviceName::GAL16V8R6 => Some(DeviceName::P16R6),
        DeviceName::GAL16V8R8 => Some(DeviceName::P16R8),
        _ => None,
    }
}

/// The chip with modes that replaces a PAL, in the mode in which it has its array. Takes no memory.
pub fn replacing(pal: DeviceName) -> Option<Model>
    ensures { result ≡ replacing pal }
{
    match pal {
        DeviceName::P16L8 => Some(Model::plain(DeviceName::GAL16V8)),
        DeviceName::P16R4 => Some(Model::registered(DeviceName::GAL16V8, FOUR)),
        DeviceName::P16R6 => Some(Model::registered(DeviceName::GAL16V8, SIX)),
        DeviceName::P16R8 => Some(Model::registered(DeviceName::GAL16V8, EIGHT)),
        DeviceName::P20L8 => Some(Model::plain(DeviceName::GAL20V8)),
        DeviceName::P20R4 => Some(Model::registered(DeviceName::GAL20V8, FOUR)),
        DeviceName::P20R6 => Some(Model::registered(DeviceName::GAL20V8, SIX)),
        DeviceName::P20R8 => Some(Model::registered(DeviceName::GAL20V8, EIGHT)),
        _ => None,
    }
}

/// Whether the second device has the array of the first, and neither has modes. Takes no memory.
fn is_counterpart(from: DeviceName, to: DeviceName) -> bool
    ensures yes { result ≡ true → counterpart_of from ≡ Some to }
    ensures no { result ≡ false → counterpart_of from ≢ Some to }
{
    match counterpart_of(from) {
        Some(other) => other == to,
        None => false,
    }
}

/// The chip of this name, in its mode, if it replaces the PAL. Takes no memory.
fn replacing_by(pal: DeviceName, chip: DeviceName) -> Option<Model>
    ensures some { IfSome result (λ model. (replacing pal ≡ Some model) × (model.name ≡ chip)) }
    ensures none { result ≡ None → (model : Model) → replacing pal ≡ Some model → model.name ≢ chip }
{
    match replacing(pal) {
        Some(model) if model.name == chip => Some(model),
        _ => None,
    }
}

/// The modes in which two devices of these names have the same array, if there are any. Takes no memory.
pub fn pair_of(from: DeviceName, to: DeviceName) -> Option<Pair>
    ensures some { IfSome result (ArePair from to) }
    ensures same { IfSome result (λ pair. IsPair (table_at pair.from) (table_at pair.to)) }
    ensures none { result ≡ None → HasNoPair from to }
{
    if is_counterpart(from, to) {
        return Some(Pair {
            from: Model::plain(from),
            to: Model::plain(to),
        });
    }
    if let Some(model) = replacing_by(from, to) {
        return Some(Pair {
            from: Model::plain(from),
            to: model,
        });
    }
    match replacing_by(to, from) {
        Some(model) => Some(Pair {
            from: model,
            to: Model::plain(to),
        }),
        None => None,
    }
}
