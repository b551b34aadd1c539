//! A file's bytes replaced in one piece: a new file is written beside it and takes its name.
//!
//! A run that is stopped at any point leaves the old bytes or the new ones under the name. What is no
//! regular file, as a pipe, has no old bytes to keep and is written to as it is.

ghost use Rattle.std.specs.Io.KnownBytes.{Appends};
ghost use Rattle.std.specs.Prelude.{true, ◌≡◌};

use crate::bytes::write_all;
use crate::files::WriteFault;
use std::alloc::Global;
use std::fs::{File, OpenFile, OpenOptions, Permissions};
use std::io::{ErrorKind, Write};
use std::os::unix::fs::PermissionsExt;
use std::{fs, rt};

/// How many names are tried for the new file.
const NAMES: u32 = 1000;

/// The most bytes that the system takes for the name of a file in its folder.
const LONGEST_NAME: usize = 255;

/// Puts the bytes under a name. `OutOfMemory` precedes anything is written.
pub fn replace<R: rt::Files>(
    host: &R,
    alloc: Global,
    name: &str,
    bytes: &[u8],
) -> Result<(), WriteFault> {
    let written = match target_of(host, alloc, name)? {
        None => overwritten(host, name, bytes),
        Some(target) => replaced(host, alloc, target.as_str(), bytes)?,
    };
    if written {
        Ok(())
    } else {
        Err(WriteFault::Failed)
    }
}

/// The path of the file that a name leads to, or the name itself if there is no file yet. None if it is a link with no such
/// path: one that leads nowhere, or to a pipe.
fn target_of<R: rt::Files>(
    host: &R,
    alloc: Global,
    name: &str,
) -> Result<Option<String>, WriteFault> {
    match host.canonicalize(alloc, name) {
        Ok(path) => return Ok(Some(path.into_string())),
        Err(fault) if fault.kind() == ErrorKind::OutOfMemory => {
            return Err(WriteFault::OutOfMemory);
        }
        Err(_) => {}
    }
    if let Ok(found) = fs::symlink_metadata(host, name) {
        if found.is_symlink() {
            return Ok(None);
        }
    }
    match String::from_str(alloc, name) {
        Ok(path) => Ok(Some(path)),
        Err(_) => Err(WriteFault::OutOfMemory),
    }
}

/// A name for a new file beside a target. If the target's own name leaves no room for the ending, its last bytes are left out,
/// and one more, so that the two names always differ.
fn name_beside(alloc: Global, target: &str, number: u32) -> Result<String, WriteFault> {
    let Ok(ending) = format!(in alloc; ".new{number}") else {
        return Err(WriteFault::OutOfMemory);
    };
    let name = match target.rsplit_once('/') {
        Some((_, name)) => name.len(),
        None => target.len(),
    };
    let kept = if name <= LONGEST_NAME.saturating_sub(ending.len()) {
        target.len()
    } else {
        target.len().saturating_sub(ending.len()).saturating_sub(1)
    };
    let front = &target[..target.floor_char_boundary(kept)];
    match format!(in alloc; "{front}{ending}") {
        Ok(fresh) => Ok(fresh),
        Err(_) => Err(WriteFault::OutOfMemory),
    }
}

/// Makes a new file beside a target, under the first name that no other file has. None if it can't be made.
fn made_beside<R: rt::Files>(
    host: &R,
    alloc: Global,
    target: &str,
) -> Result<Option<(String, R::File)>, WriteFault> {
    for number in 0..NAMES {
        let fresh = name_beside(alloc, target, number)?;
        match File::create_new(host, fresh.as_str()) {
            Ok(file) => return Ok(Some((fresh, file))),
            Err(fault) if fault.kind() == ErrorKind::AlreadyExists => {}
            Err(_) => return Ok(None),
        }
    }
    Ok(None)
}

/// Whether the bytes were written over those that the name has, or through the link that it is.
fn overwritten<R: rt::Files>(host: &R, name: &str, bytes: &[u8]) -> bool {
    match File::create(host, name) {
        Ok(mut file) => write_all(&mut file, bytes),
        Err(_) => false,
    }
}

/// Whether the target has the bytes: a new file if there isn't one or a regular one that may be written, else what is there
/// takes them.
fn replaced<R: rt::Files>(
    host: &R,
    alloc: Global,
    target: &str,
    bytes: &[u8],
) -> Result<bool, WriteFault> {
    match OpenOptions::new().write(true).open(host, target) {
        Ok(mut old) => match old.metadata() {
            Ok(found) if found.is_file() => {
                renamed(host, alloc, target, Some(found.permissions()), bytes)
            }
            Ok(_) => Ok(write_all(&mut old, bytes)),
            Err(_) => Ok(false),
        },
        Err(fault) if fault.kind() == ErrorKind::NotFound => {
            renamed(host, alloc, target, None, bytes)
        }
        Err(_) => Ok(false),
    }
}

/// Whether a new file of these bytes has taken the target's name. If not, it is removed.
fn renamed<R: rt::Files>(
    host: &R,
    alloc: Global,
    target: &str,
    mode: Option<Permissions>,
    bytes: &[u8],
) -> Result<bool, WriteFault> {
    let Some((fresh, mut file)) = made_beside(host, alloc, target)? else {
        return Ok(false);
    };
    if filled(&mut file, mode, bytes) && fs::rename(host, fresh.as_str(), target).is_ok() {
        return Ok(true);
    }
    let _ = fs::remove_file(host, fresh.as_str());
    Ok(false)
}

/// Who may read, write and run a file, without the bits by which it runs as its owner or group.
fn access(mode: Permissions) -> Permissions {
    Permissions::from_mode(mode.mode() & 0o777)
}

/// Whether a file has taken the access of the mode and all of the bytes, and the system has stored them.
fn filled<F: Write + OpenFile>(file: &mut F, mode: Option<Permissions>, bytes: &[u8]) -> bool
    ensures { result ≡ true → Appends (F.contents file.old) (F.contents file.new) bytes.now }
{
    if let Some(mode) = mode {
        if file.set_permissions(access(mode)).is_err() {
            return false;
        }
    }
    write_all(file, bytes) && file.sync_all().is_ok()
}
