//! The devices by their names at run time.

ghost use Rattle.std.specs.Prelude.{◌≡◌};
ghost use Rattle.devices.specs.Devices.{table_of};
ghost use Rattle.devices.specs.Models.{mode_by, table_at};
ghost use Rattle.devices.specs.V8Chips.{v8_of};
ghost use Rattle.devices.specs.V8Tables.{v8_in};

use crate::atf22v10c::Atf22V10C;
use crate::gal16v8c::Gal16V8C;
use crate::gal16v8r4::Gal16V8R4;
use crate::gal16v8r6::Gal16V8R6;
use crate::gal16v8r8::Gal16V8R8;
use crate::gal18v10::Gal18V10;
use crate::gal22v10::Gal22V10;
use crate::pal16l8::Pal16L8;
use crate::pal16p8::Pal16P8;
use crate::pal16r4::Pal16R4;
use crate::pal16r6::Pal16R6;
use crate::pal16r8::Pal16R8;
use crate::pal18p8::Pal18P8;
use crate::pal20l8::Pal20L8;
use crate::pal20l10::Pal20L10;
use crate::pal20r4::Pal20R4;
use crate::pal20r6::Pal20R6;
use crate::pal20r8::Pal20R8;
use crate::v8::V8Chip;
use crate::v8_complex::V8Complex;
use crate::v8_registered::V8Registered;
use crate::v8_simple::V8Simple;
use pld_base::{DeviceName, Model};
use pld_device::{Device, Loaded, load};

/// The device of a name; one with modes is in complex mode. Takes no memory.
pub fn loaded<D: Device>(name: DeviceName) -> Loaded<D>
    requires { table_of name ≡ D.table }
{
    loaded_at::<D>(Model::plain(name))
}

/// A chip with modes in the mode of a model.
fn loaded_v8<D: Device>(chip: V8Chip, model: Model) -> Loaded<D>
    requires { v8_in (v8_of chip) (mode_by model.syn model.ac0 model.set) ≡ D.table }
{
    let set = model.set;
    if !model.syn {
        return load::<D, V8Registered>(&V8Registered { chip, stores: set });
    }
    if model.ac0 {
        return load::<D, V8Complex>(&V8Complex { chip });
    }
    load::<D, V8Simple>(&V8Simple { chip, driven: set })
}

/// The device of a model: the one place that asks which it is. Takes no memory.
pub fn loaded_at<D: Device>(model: Model) -> Loaded<D>
    requires { table_at model ≡ D.table }
{
    match model.name {
        DeviceName::P16L8 => load::<D, Pal16L8>(&Pal16L8),
        DeviceName::P16R4 => load::<D, Pal16R4>(&Pal16R4),
        DeviceName::P16R6 => load::<D, Pal16R6>(&Pal16R6),
        DeviceName::P16R8 => load::<D, Pal16R8>(&Pal16R8),
        DeviceName::GAL22V10 => load::<D, Gal22V10>(&Gal22V10),
        DeviceName::GAL16V8C => load::<D, Gal16V8C>(&Gal16V8C),
        DeviceName::GAL16V8R4 => load::<D, Gal16V8R4>(&Gal16V8R4),
        DeviceName::GAL16V8R6 => load::<D, Gal16V8R6>(&Gal16V8R6),
        DeviceName::GAL16V8R8 => load::<D, Gal16V8R8>(&Gal16V8R8),
        DeviceName::P20L8 => load::<D, Pal20L8>(&Pal20L8),
        DeviceName::P20R4 => load::<D, Pal20R4>(&Pal20R4),
        DeviceName::P20R6 => load::<D, Pal20R6>(&Pal20R6),
        DeviceName::P20R8 => load::<D, Pal20R8>(&Pal20R8),
        DeviceName::P20L10 => load::<D, Pal20L10>(&Pal20L10),
        DeviceName::P16P8 => load::<D, Pal16P8>(&Pal16P8),
        DeviceName::P18P8 => load::<D, Pal18P8>(&Pal18P8),
        DeviceName::GAL18V10 => load::<D, Gal18V10>(&Gal18V10),
        DeviceName::ATF22V10C => load::<D, Atf22V10C>(&Atf22V10C),
        DeviceName::GAL16V8 => loaded_v8::<D>(V8Chip::Gal16V8, model),
        DeviceName::GAL20V8 => loaded_v8::<D>(V8Chip::Gal20V8, model),
    }
}
