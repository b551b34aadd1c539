//! Laws of the devices by their names, as contracts.

ghost use Rattle.std.specs.Prelude.{◌≡◌};
ghost use Rattle.devices.specs.Prelude.{DeviceName, IsDevice};
ghost use Rattle.devices.specs.Devices.{table_of};
ghost use Rattle.devices.specs.Models.{table_at};
ghost use Rattle.pld_base.specs.declared.model.Model.{Model};

use crate::loading::loaded;
use pld_base::DeviceName;
use pld_device::Device;
use std::marker::Brand;

/// The table of each name is that of a device, and so is that of each model. Does nothing.
pub fn each_is_a_device()
    ensures name { (device : DeviceName) → IsDevice (table_of device) }
    ensures model { (model : Model) → IsDevice (table_at model) }
{}

/// The name of the device that has this table.
fn name_for<D: Device>(name: DeviceName) -> DeviceName
    requires table { table_of name ≡ D.table }
    ensures { result ≡ D.table.name }
{
    loaded::<D>(name).name()
}

/// The name of the device that a name chooses, which is this name. Takes no memory.
pub fn chosen(device: DeviceName) -> DeviceName
    ensures same { result ≡ device }
    ensures named { result ≡ (table_of device).name }
{
    name_for::<Brand>(device)
}
