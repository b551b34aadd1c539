//! `abel`: from ABEL-HDL sources to JEDEC fuse files.
#![tactic(auto)]

use abel_cli::{Given, start};
use outside::{HostFiles, HostSink};
use std::io::ErrorKind;
use std::process::ExitCode;
use std::{env, io};

/// The words after the program's name, each of which is UTF-8.
fn text_words(rt: &HostRuntime) -> io::Result<Vec<String>> {
    let mut words = Vec::new(rt.alloc());
    for word in env::args(rt)?.skip(1) {
        words.push(word)?;
    }
    Ok(words)
}

/// The words after the program's name.
fn given_words(rt: &HostRuntime) -> Given {
    match text_words(rt) {
        Ok(words) => Given::Words(words),
        Err(fault) if fault.kind() == ErrorKind::InvalidData => Given::NotText,
        Err(_) => Given::Unknown,
    }
}

/// Runs the program over the real files and standard output.
fn main(rt: HostRuntime) -> ExitCode {
    let alloc = rt.alloc();
    let given = given_words(&rt);
    let mut files = HostFiles::new(alloc, &rt);
    let mut report = HostSink::new(alloc, rt.stdout());
    ExitCode::from(start(alloc, &given, &mut files, &mut report))
}
