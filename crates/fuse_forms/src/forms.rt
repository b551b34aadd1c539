//! Files in the forms that programmers want.

ghost use Rattle.std.specs.Prelude.{◌≡◌, IfOk, IfSome, take};
ghost use Rattle.fuse_forms.specs.InForm.{IsInForm, IsReadAs, relisted, signature_of, with_spare};
ghost use Rattle.fuse_forms.specs.Prelude.{Table, contents};
ghost use Rattle.fuse_forms.specs.Signature.{signed};
ghost use Rattle.fuse_forms.specs.declared.forms.Form.TheVariants.{Jed, Jed5828, Jed5893};
ghost use Rattle.devices.specs.Devices.{table_of};

use crate::packing::binary;
use crate::signature::signed;
use crate::text::written;
use devices::loaded;
use jedec_reader::FuseFile;
use pld_base::{DeviceName, ListOf, OutOfMemory};
use pld_device::{Device, Fuses, Loaded};
use std::alloc::Global;
use std::marker::Brand;

/// The number of the last fuse of an ATF22V10C, which a GAL22V10 lacks.
const SPARE: usize = 5892;

/// A form of fuses.
#[derive(Clone, Copy, PartialEq, Eq)]
pub enum Form {
    /// A fuse file of all fuses.
    Jed,
    /// A fuse file of a GAL22V10 without its signature: 5,828 fuses.
    Jed5828,
    /// A fuse file of an ATF22V10C: 5,893 fuses, the last of which is 0.
    Jed5893,
    /// The binary form, without vectors.
    Bin,
}

/// The file with other levels, of which so many are listed.
fn with_levels(
    alloc: Global,
    file: &FuseFile,
    levels: Vec<bool>,
    listed: u16,
) -> Result<FuseFile, OutOfMemory>
    ensures { IfOk result (λ other. (t : Table)
        → contents t other ≡ relisted (contents t file.now) levels.items listed) }
{
    Ok(FuseFile {
        fuses: Fuses::from_levels(levels),
        listed,
        vectors: ListOf::from_vec(Vec::from_slice(alloc, file.vectors.as_slice())?),
        default_level: file.default_level,
    })
}

/// The fuse file of the device of this name that says this.
fn written_for<D: Device>(
    alloc: Global,
    name: DeviceName,
    file: &FuseFile,
    secured: bool,
) -> Result<Option<Vec<u8>>, OutOfMemory>
    requires table { table_of name ≡ D.table }
    ensures { IfOk result (λ found. IfSome found
        (λ bytes. IsReadAs D.table bytes.items (contents D.table file.now))) }
{
    let device = loaded::<D>(name);
    written::<D>(alloc, &device, file, secured)
}

/// The fuse file that lists all fuses of its device.
fn whole_file<D: Device>(
    alloc: Global,
    device: &Loaded<D>,
    file: &FuseFile,
    secured: bool,
) -> Result<Option<Vec<u8>>, OutOfMemory>
    ensures { IfOk result (λ found. IfSome found
        (λ bytes. IsInForm D.table Jed file.now bytes.items)) }
{
    let levels = Vec::from_slice(alloc, file.fuses.levels())?;
    let file = with_levels(alloc, file, levels, device.fuses())?;
    written::<D>(alloc, device, &file, secured)
}

/// So many of the first levels, or all. Takes no memory.
fn first_levels(levels: &[bool], count: usize) -> &[bool]
    ensures { result.now ≡ take count levels.now }
{
    levels.split_at(count.min(levels.len())).0
}

/// The fuse file of a GAL22V10 that lists 5,828 fuses.
fn short_file(alloc: Global, file: &FuseFile, secured: bool) -> Result<Option<Vec<u8>>, OutOfMemory>
    ensures { (t : Table) → IfOk result (λ found. IfSome found
        (λ bytes. IsInForm t Jed5828 file.now bytes.items)) }
{
    let levels = Vec::from_slice(alloc, first_levels(file.fuses.levels(), SPARE))?;
    let file = with_levels(alloc, file, levels, 5828)?;
    written_for::<Brand>(alloc, DeviceName::GAL22V10, &file, secured)
}

/// The levels, and one more, which is 0, if there aren't those of an ATF22V10C.
fn with_spare(alloc: Global, levels: &[bool]) -> Result<Vec<bool>, OutOfMemory>
    ensures { IfOk result (λ v. v.items ≡ with_spare levels.now) }
{
    let mut longer = Vec::from_slice(alloc, levels)?;
    if levels.len() != SPARE + 1 {
        longer.push(false)?;
    }
    Ok(longer)
}

/// The fuse file of an ATF22V10C that lists its 5,893 fuses.
fn long_file(alloc: Global, file: &FuseFile, secured: bool) -> Result<Option<Vec<u8>>, OutOfMemory>
    ensures { (t : Table) → IfOk result (λ found. IfSome found
        (λ bytes. IsInForm t Jed5893 file.now bytes.items)) }
{
    let levels = with_spare(alloc, file.fuses.levels())?;
    let file = with_levels(alloc, file, levels, 5893)?;
    written_for::<Brand>(alloc, DeviceName::ATF22V10C, &file, secured)
}

/// The bytes of a file in a form, `secured` with the field that forbids reading. `None` if the device has no such form, or a
/// fuse that is not listed is opened, or the bytes are too many.
pub fn in_form<D: Device>(
    alloc: Global,
    device: &Loaded<D>,
    file: &FuseFile,
    form: Form,
    secured: bool,
) -> Result<Option<Vec<u8>>, OutOfMemory>
    ensures { IfOk result (λ found. IfSome found
        (λ bytes. IsInForm D.table form file.now bytes.items)) }
{
    match form {
        Form::Jed => whole_file::<D>(alloc, device, file, secured),
        Form::Jed5828 => short_file(alloc, file, secured),
        Form::Jed5893 => long_file(alloc, file, secured),
        Form::Bin => binary(alloc, file.fuses.levels()),
    }
}

/// The first fuse of a device's signature. Takes no memory.
pub fn signature_of(device: DeviceName) -> Option<usize>
    ensures { result ≡ signature_of device }
{
    match device {
        DeviceName::GAL16V8
        | DeviceName::GAL16V8C
        | DeviceName::GAL16V8R4
        | DeviceName::GAL16V8R6
        | DeviceName::GAL16V8R8 => Some(2056),
        DeviceName::GAL20V8 => Some(2568),
        DeviceName::GAL22V10 | DeviceName::ATF22V10C => Some(5828),
        DeviceName::GAL18V10 => Some(3476),
        _ => None,
    }
}

/// The file with a text in its signature, whose first fuse has this number.
pub fn signed_file(
    alloc: Global,
    file: &FuseFile,
    first: usize,
    text: &[u8],
) -> Result<FuseFile, OutOfMemory>
    ensures { IfOk result (λ other. (t : Table) → contents t other
        ≡ relisted (contents t file.now) (signed text.now first file.now.fuses) file.now.listed) }
{
    let levels = signed(alloc, file.fuses.levels(), first, text)?;
    with_levels(alloc, file, levels, file.listed)
}
