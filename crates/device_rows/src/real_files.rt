//! That the real files and standard output answer, in a folder of the program's own.

use crate::full_disk::FullDisk;
use outside::{Files, GuardedFiles, HostFiles, HostSink, ReadFault, Sink, WriteFault};
use std::fs::Permissions;
use std::os::unix::fs::PermissionsExt;
use std::{fs, io, rt};

/// Whether a file reads as these bytes.
fn reads(rt: &HostRuntime, name: &str, bytes: &[u8]) -> bool {
    let alloc = rt.alloc();
    match HostFiles::new(alloc, rt).read(alloc, name, bytes.len()) {
        Ok(found) => found.as_slice() == bytes,
        Err(_) => false,
    }
}

/// Whether the real files and standard output answer, and refuse a long file, an absent one, a folder and a missing folder.
pub fn real_files(rt: &HostRuntime) -> io::Result<[bool; 8]> {
    let alloc = rt.alloc();
    let _ = fs::remove_dir_all(rt, "abel_host_files");
    fs::create_dir(rt, "abel_host_files")?;
    let mut files = HostFiles::new(alloc, rt);
    let mut out = HostSink::new(alloc, rt.stdout());
    let answers = [
        files.write("abel_host_files/y1.jed", b"four") == Ok(()),
        reads(rt, "abel_host_files/y1.jed", b"four"),
        files.read(alloc, "abel_host_files/y1.jed", 3) == Err(ReadFault::TooLong),
        files.read(alloc, "abel_host_files/none", 4) == Err(ReadFault::Failed),
        files.write("abel_host_files", b"four") == Err(WriteFault::Failed),
        files.write("no/such/file", b"four") == Err(WriteFault::Failed),
        // No regular file.
        files.write("/dev/null", b"four") == Ok(()),
        out.put(b"taken\n") == Ok(()),
    ];
    fs::remove_dir_all(rt, "abel_host_files")?;
    Ok(answers)
}

/// Whether an old file is written that runs as its owner, in a folder with a link to it.
fn make_old(rt: &HostRuntime) -> io::Result<bool> {
    let _ = fs::remove_dir_all(rt, "abel_host_replaced");
    fs::create_dir(rt, "abel_host_replaced")?;
    let mut files = HostFiles::new(rt.alloc(), rt);
    let is_made = files.write("abel_host_replaced/old", b"old bytes") == Ok(());
    fs::set_permissions(rt, "abel_host_replaced/old", Permissions::from_mode(0o4640))?;
    rt::Files::symlink(rt, "old", "abel_host_replaced/link")?;
    Ok(is_made)
}

/// Whether a write through the link leaves the old file as it was on a full disk, with no new file beside it.
fn stands_when_full(rt: &HostRuntime) -> io::Result<[bool; 3]> {
    let mut full = HostFiles::new(rt.alloc(), FullDisk { real: rt });
    Ok([
        full.write("abel_host_replaced/link", b"new bytes") == Err(WriteFault::Failed),
        reads(rt, "abel_host_replaced/link", b"old bytes"),
        !fs::exists(rt, "abel_host_replaced/old.new0")?,
    ])
}

/// Whether a write through the link replaces the file, which keeps its access and no longer runs as its owner, and the link stays one.
fn is_replaced(rt: &HostRuntime) -> io::Result<[bool; 4]> {
    let mut files = HostFiles::new(rt.alloc(), rt);
    let is_written = files.write("abel_host_replaced/link", b"new bytes") == Ok(());
    let link = fs::symlink_metadata(rt, "abel_host_replaced/link")?;
    let old = fs::metadata(rt, "abel_host_replaced/old")?;
    Ok([
        is_written,
        reads(rt, "abel_host_replaced/old", b"new bytes"),
        link.is_symlink(),
        old.permissions().mode() % 0o10000 == 0o640,
    ])
}

/// Whether the old file is replaced if the first name beside it is taken, and what has that name is; and whether files of
/// the longest name are written and replaced.
fn gives_way(rt: &HostRuntime) -> io::Result<[bool; 5]> {
    let longest = format!(in rt.alloc(); "abel_host_replaced/{:n<255}", "")?;
    let mut files = HostFiles::new(rt.alloc(), rt);
    Ok([
        files.write("abel_host_replaced/old.new0", b"taken") == Ok(()),
        files.write("abel_host_replaced/old", b"newer bytes") == Ok(()),
        reads(rt, "abel_host_replaced/old.new0", b"taken"),
        files.write(longest.as_str(), b"long") == Ok(()),
        files.write(longest.as_str(), b"longer") == Ok(()),
    ])
}

/// Whether a file is replaced in one piece, or is.
pub fn replaced_files(rt: &HostRuntime) -> io::Result<[bool; 13]> {
    let made = make_old(rt)?;
    let [failed, kept, alone] = stands_when_full(rt)?;
    let [written, replaced, link, mode] = is_replaced(rt)?;
    let [taken, newer, stands, long, longer] = gives_way(rt)?;
    fs::remove_dir_all(rt, "abel_host_replaced")?;
    Ok([
        made, failed, kept, alone, written, replaced, link, mode, taken, newer, stands, long,
        longer,
    ])
}

/// Whether three files and a link to the first are made, in a folder of their own.
fn make_guarded(rt: &HostRuntime) -> io::Result<bool> {
    let _ = fs::remove_dir_all(rt, "abel_host_guarded");
    fs::create_dir(rt, "abel_host_guarded")?;
    rt::Files::symlink(rt, "in", "abel_host_guarded/link")?;
    let mut files = HostFiles::new(rt.alloc(), rt);
    Ok(
        files.write("abel_host_guarded/in", b"front of in") == Ok(())
            && files.write("abel_host_guarded/page", b"front of page") == Ok(())
            && files.write("abel_host_guarded/short", b"fron") == Ok(()),
    )
}

/// Whether a write under a name is reported to lose nothing.
fn may_replace(rt: &HostRuntime, name: &str) -> bool {
    let mut files = HostFiles::new(rt.alloc(), rt);
    files.may_replace(name, "abel_host_guarded/in", b"front") == Ok(true)
}

/// Whether a write loses nothing if there is no file, one with the front, or no regular file, and something if there is
/// another file, or the input itself, also through a link.
pub fn guarded_files(rt: &HostRuntime) -> io::Result<[bool; 7]> {
    let made = make_guarded(rt)?;
    let answers = [
        made,
        may_replace(rt, "abel_host_guarded/none"),
        may_replace(rt, "abel_host_guarded/page"),
        may_replace(rt, "/dev/null"),
        !may_replace(rt, "abel_host_guarded/short"),
        !may_replace(rt, "abel_host_guarded/in"),
        !may_replace(rt, "abel_host_guarded/link"),
    ];
    fs::remove_dir_all(rt, "abel_host_guarded")?;
    Ok(answers)
}
