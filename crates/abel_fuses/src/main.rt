//! `abel-fuses`: commands on fuse files, without the compiler.
#![tactic(auto)]

use fuse_commands::run;
use outside::{HostFiles, HostSink};
use std::io::ErrorKind;
use std::process::ExitCode;
use std::{env, io};

/// The words after the program's name, each of which is UTF-8.
fn text_words(rt: &HostRuntime) -> io::Result<Vec<String>> {
    let mut words = Vec::new(rt.alloc());
    for word in env::args(rt)?.skip(1) {
        words.push(word)?;
    }
    Ok(words)
}

/// The status that the program ends with. If some word is no UTF-8 it is as if there were none.
fn status(rt: &HostRuntime) -> u8 {
    let alloc = rt.alloc();
    let mut files = HostFiles::new(alloc, rt);
    let mut report = HostSink::new(alloc, rt.stdout());
    match text_words(rt) {
        Ok(words) => run(alloc, &words, &mut files, &mut report),
        Err(fault) if fault.kind() == ErrorKind::InvalidData => {
            run(alloc, &[], &mut files, &mut report)
        }
        Err(_) => 8,
    }
}

/// Runs the program over the real files and standard output.
fn main(rt: HostRuntime) -> ExitCode {
    ExitCode::from(status(&rt))
}
