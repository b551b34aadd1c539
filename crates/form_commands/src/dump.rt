//! What bytes amount to as a dump of a device.

ghost use Rattle.std.specs.Prelude.{◌≡◌, ◌↔◌, ℕ, Bool, IfOk, List, None, length};
ghost use Rattle.devices.specs.Models.{model_by, table_at};
ghost use Rattle.form_commands.specs.Dumps.{IsDumped, Says};
ghost use Rattle.form_commands.specs.Prelude.{HasFixedLevels, contents, table_of, wrong_fixed};

use devices::{loaded_at, model_by};
use fuse_forms::Finding;
use fuse_reports::wrong_mode_line;
use jedec_reader::FuseFile;
use pld_base::{DeviceName, Model, OutOfMemory};
use pld_device::{Device, Fuses, Loaded, wrong_fuse};
use std::alloc::Global;
use std::marker::Brand;

/// The form in which bytes say a fuse file.
#[derive(Drop)]
pub enum Way {
    /// As a fuse file.
    AsFile,
    /// In the binary form.
    InBinary,
    /// As a fuse file once this is repaired.
    Repaired(Vec<Finding>),
    /// The same with one fuse more, that of an ATF22V10C.
    Longer(Vec<Finding>),
}

/// What bytes amount to: a fuse file, and how they say it; or the line on why they say none.
#[derive(Drop)]
pub enum Dump {
    File { file: FuseFile, how: Way },
    Refused(Vec<u8>),
}

/// The first fuse that has another level than the one that the device of this model fixes. Takes no memory.
fn wrong_fuse_at<D: Device>(model: Model, fuses: &Fuses) -> Option<u16>
    requires table { table_at model ≡ D.table }
    requires fuses { length fuses.now ≡ D.table.fuses }
    ensures first { result ≡ wrong_fixed fuses.now D.table.fixed }
    ensures none { (result ≡ None) ↔ HasFixedLevels D.table fuses.now }
{
    wrong_fuse::<D>(&loaded_at::<D>(model), fuses)
}

/// The same for the device of this name, in the mode that the fuses say. Takes no memory.
fn wrong_in_mode(name: DeviceName, fuses: &Fuses) -> Option<u16>
    requires { length fuses.now ≡ (table_of name).fuses }
    ensures first { result ≡ wrong_fixed fuses.now (table_at (model_by name fuses.now)).fixed }
    ensures none { (result ≡ None)
        ↔ HasFixedLevels (table_at (model_by name fuses.now)) fuses.now }
{
    let model = model_by(name, fuses.levels());
    wrong_fuse_at::<Brand>(model, fuses)
}

/// The file that bytes say, unless a fuse has another level than the one that the device fixes in the mode that the fuses say.
pub fn in_mode<D: Device>(
    alloc: Global,
    device: &Loaded<D>,
    file: FuseFile,
    how: Way,
) -> Result<Dump, OutOfMemory>
    requires own { table_of D.table.name ≡ D.table }
    requires fuses { length file.fuses ≡ D.table.fuses }
    ensures { (mends : Bool) (bytes : List ℕ)
        → Says D.table mends bytes how (contents D.table file)
        → IfOk result (IsDumped D.table mends bytes) }
{
    match wrong_in_mode(device.name(), &file.fuses) {
        None => Ok(Dump::File { file, how }),
        Some(fuse) => Ok(Dump::Refused(wrong_mode_line(alloc, fuse)?)),
    }
}
