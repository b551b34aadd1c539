//! The model of the bytes of a fuse file.

ghost use Rattle.std.specs.Prelude.{◌≡◌, ◌≤◌, IfOk, length};
ghost use Rattle.devices.specs.Devices.{table_of};
ghost use Rattle.file_models.specs.FileModels.{model_of};
ghost use Rattle.jedec_reader.specs.DeviceFiles.{limit};

use devices::{loaded, model_by};
use jedec_file::JedecFault;
use jedec_reader::read;
use pld_base::{DeviceName, Model, OutOfMemory};
use pld_device::Device;
use std::alloc::Global;
use std::marker::Brand;

/// The model of bytes, which are read by the sizes of the device of this table.
fn model_for<D: Device>(alloc: Global, name: DeviceName, bytes: &[u8]) -> Result<Model, OutOfMemory>
    requires table { table_of name ≡ D.table }
    requires within { length bytes.now ≤ limit }
    ensures { IfOk result (λ model. model ≡ model_of name bytes.now) }
{
    match read::<D>(alloc, &loaded::<D>(name), bytes) {
        Ok(file) => Ok(model_by(name, file.fuses.levels())),
        Err(JedecFault::OutOfMemory) => Err(OutOfMemory),
        Err(_) => Ok(Model::plain(name)),
    }
}

/// The model of a fuse file of the device of this name: with modes, in the mode that its fuses say. Bytes that aren't read have
/// that of the name alone. Takes memory for the file, but none for a device without modes.
pub fn model_of(alloc: Global, name: DeviceName, bytes: &[u8]) -> Result<Model, OutOfMemory>
    requires { length bytes.now ≤ limit }
    ensures { IfOk result (λ model. model ≡ model_of name bytes.now) }
{
    if !name.has_modes() {
        return Ok(Model::plain(name));
    }
    model_for::<Brand>(alloc, name, bytes)
}
