//! Dumps of a GAL22V10 that are fuse files of an ATF22V10C, which has one fuse more.

ghost use Rattle.std.specs.Prelude.{true, false, ◌≡◌, ℕ, Bool, IfOk, IfSome, List, MatchOption, length};
ghost use Rattle.form_commands.specs.Dumps.{IsDumped, IsRepairedTo, IsUnreadable, longer_by};
ghost use Rattle.form_commands.specs.Prelude.{IsRepairedFile, atf22v10c, contents, gal22v10, is_on, table_of};

use crate::dump::{Dump, Way};
use crate::dump_lines::spare_fuse_line;
use devices::loaded;
use fuse_forms::{RepairedFile, repaired};
use jedec_reader::FuseFile;
use pld_base::{DeviceName, ListOf, OutOfMemory};
use pld_device::{Device, Fuses};
use std::alloc::Global;
use std::marker::Brand;

/// The fuses of a GAL22V10.
const FUSES: u16 = 5892;

/// The fuse file of the device of this name that bytes are once they are repaired, if they are one.
fn repaired_as<D: Device>(
    alloc: Global,
    name: DeviceName,
    mends: bool,
    bytes: &[u8],
) -> Result<Option<RepairedFile>, OutOfMemory>
    requires table { table_of name ≡ D.table }
    ensures { IfOk result
        (λ found. IfSome found (IsRepairedFile D.table mends bytes.now)) }
{
    let device = loaded::<D>(name);
    repaired::<D>(alloc, &device, bytes, mends)
}

/// The file of a GAL22V10 that has all fuses of an ATF22V10C's file but the last one; `None` if that one is 1.
fn without_spare(alloc: Global, file: &FuseFile) -> Result<Option<FuseFile>, OutOfMemory>
    requires { length file.now.fuses ≡ 5893 }
    ensures { IfOk result (λ found. MatchOption found (is_on file.now.fuses 5892 ≡ true)
        (λ other. contents atf22v10c file.now
        ≡ longer_by false (contents gal22v10 other) file.now.listed)) }
{
    let levels = file.fuses.levels();
    if levels[usize::from(FUSES)] {
        return Ok(None);
    }
    let (front, _) = levels.split_at(usize::from(FUSES));
    Ok(Some(FuseFile {
        fuses: Fuses::from_levels(Vec::from_slice(alloc, front)?),
        listed: FUSES,
        vectors: ListOf::from_vec(Vec::from_slice(alloc, file.vectors.as_slice())?),
        default_level: file.default_level,
    }))
}

/// What the repaired file of an ATF22V10C amounts to as a dump of a GAL22V10.
fn shorter_dump(alloc: Global, found: RepairedFile) -> Result<Dump, OutOfMemory>
    requires { length found.file.fuses ≡ 5893 }
    ensures { (mends : Bool) (bytes : List ℕ)
        → IsRepairedTo gal22v10 atf22v10c mends found.findings.items bytes
        (contents atf22v10c found.file) → IfOk result (IsDumped gal22v10 mends bytes) }
{
    let shorter = without_spare(alloc, &found.file)?;
    match shorter {
        None => Ok(Dump::Refused(spare_fuse_line(alloc)?)),
        Some(file) => Ok(Dump::File {
            file,
            how: Way::Longer(found.findings),
        }),
    }
}

/// What bytes that aren't read as a fuse file of a GAL22V10 amount to as one with a fuse more; `None` if they aren't one either.
pub fn longer_dump(alloc: Global, mends: bool, bytes: &[u8]) -> Result<Option<Dump>, OutOfMemory>
    requires { IsUnreadable gal22v10 bytes.now }
    ensures { IfOk result (λ found. IfSome found (IsDumped gal22v10 mends bytes.now)) }
{
    let found = repaired_as::<Brand>(alloc, DeviceName::ATF22V10C, mends, bytes)?;
    match found {
        None => Ok(None),
        Some(file) => Ok(Some(shorter_dump(alloc, file)?)),
    }
}
