//! The model that a device's fuses say.

ghost use Rattle.std.specs.Prelude.{◌≡◌, ◌+◌, ◌<◌, ◌≤◌};
ghost use Rattle.devices.specs.Models.{is_in_set, model_by, v8_model};
ghost use Rattle.devices.specs.V8Chips.{v8_of};
ghost use Rattle.pld_base.specs.Bits.{is_on};

use crate::control::{AC0, FIRST_AC1, SYN};
use crate::v8::V8Chip;
use pld_base::{DeviceName, Model};

/// The level of a fuse, 0 past the last one.
fn level(levels: &[bool], fuse: u16) -> bool
    ensures { result ≡ is_on levels.now fuse }
{
    levels.get(usize::from(fuse)).copied().unwrap_or(false)
}

/// Whether the AC1 of a cell is 0.
fn is_in_set(levels: &[bool], control: u16, cell: u16) -> bool
    requires control { control ≤ 2560 }
    requires cell { cell < 8 }
    ensures { result ≡ is_in_set control levels.now cell }
{
    !level(levels, control + FIRST_AC1 + cell)
}

/// The model of a chip with modes.
fn v8_model(chip: V8Chip, name: DeviceName, levels: &[bool]) -> Model
    requires { name ≡ (v8_of chip).name }
    ensures { result ≡ v8_model (v8_of chip) levels.now }
{
    let control = chip.control();
    let set = [
        is_in_set(levels, control, 0),
        is_in_set(levels, control, 1),
        is_in_set(levels, control, 2),
        is_in_set(levels, control, 3),
        is_in_set(levels, control, 4),
        is_in_set(levels, control, 5),
        is_in_set(levels, control, 6),
        is_in_set(levels, control, 7),
    ];
    Model {
        name,
        syn: level(levels, control + SYN),
        ac0: level(levels, control + AC0),
        set,
    }
}

/// The model of a device that has fuses of these levels. Takes no memory.
pub fn model_by(name: DeviceName, levels: &[bool]) -> Model
    ensures { result ≡ model_by name levels.now }
{
    match name {
        DeviceName::GAL16V8 => v8_model(V8Chip::Gal16V8, name, levels),
        DeviceName::GAL20V8 => v8_model(V8Chip::Gal20V8, name, levels),
        _ => Model::plain(name),
    }
}
