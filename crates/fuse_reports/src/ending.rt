//! How a run ends, whatever the command, and the report's text.

ghost use Rattle.std.specs.Prelude.{◌≡◌, ◌++◌, IfOk, codes};
ghost use Rattle.fuse_reports.specs.Ending.{ends};
ghost use Rattle.fuse_reports.specs.View.{ending_seen, view};

use pld_base::OutOfMemory;
use std::alloc::Global;

/// The bytes that are put under a name.
#[derive(Drop)]
pub struct Output<'a> {
    pub name: &'a str,
    pub bytes: Vec<u8>,
}

/// How a command ends: the status, the whole text of the report, and what it puts under a name.
#[derive(Drop)]
pub struct Ending<'a> {
    pub status: u8,
    pub text: Vec<u8>,
    pub output: Option<Output<'a>>,
}

impl<'a> Ending<'a> {
    /// An ending that puts nothing under any name. Takes no memory.
    pub fn plain(status: u8, text: Vec<u8>) -> Ending<'a>
        ensures { ending_seen result ≡ ends status text.items }
    {
        Ending {
            status,
            text,
            output: None,
        }
    }
}

/// The result of a run, up to the report.
#[derive(Drop)]
pub enum Outcome<'a> {
    /// The command ended so.
    Ended(Ending<'a>),
    /// The file of this name was not read.
    Unread(&'a str),
    /// The file of this name was not written.
    Unwritten(&'a str),
}

/// The status that an outcome ends with, if it is reported in full.
pub fn status(outcome: &Outcome) -> u8
    ensures { result ≡ (view outcome.now).status }
{
    match outcome {
        Outcome::Ended(ending) => ending.status,
        Outcome::Unread(_) | Outcome::Unwritten(_) => 6,
    }
}

/// A line of two pieces.
pub fn line(alloc: Global, front: &[u8], name: &[u8]) -> Result<Vec<u8>, OutOfMemory>
    ensures { IfOk result (λ v. v.items ≡ front.now ++ name.now ++ codes "\n") }
{
    let mut text = Vec::from_slice(alloc, front)?;
    text.extend_from_slice(name)?;
    text.push(b'\n')?;
    Ok(text)
}

/// The whole text of the report.
pub fn text(alloc: Global, outcome: &Outcome) -> Result<Vec<u8>, OutOfMemory>
    ensures { IfOk result (λ v. v.items ≡ (view outcome.now).text) }
{
    match outcome {
        Outcome::Ended(ending) => Ok(Vec::from_slice(alloc, ending.text.as_slice())?),
        Outcome::Unread(name) | Outcome::Unwritten(name) => {
            let name: &str = name;
            line(alloc, b"error file ", name.as_bytes())
        }
    }
}
