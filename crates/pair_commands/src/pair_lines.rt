//! The lines of the reports on files of two devices.

ghost use Rattle.std.specs.Prelude.{◌≡◌, ◌++◌, IfOk, codes};
ghost use Rattle.pair_commands.specs.PairText.{names_text, no_counterpart_line, ported_line, same_line, unported_line};

use fuse_reports::put_numbered;
use pld_base::{DeviceName, OutOfMemory};
use std::alloc::Global;

/// A line's beginning: its word and two devices' names.
pub fn line_on(
    alloc: Global,
    word: &[u8],
    from: DeviceName,
    to: DeviceName,
) -> Result<Vec<u8>, OutOfMemory>
    ensures { IfOk result (λ line. line.items ≡ word.now ++ names_text from to) }
{
    let mut line = Vec::from_slice(alloc, word)?;
    line.extend_from_slice(from.text().as_bytes())?;
    line.push(b' ')?;
    line.extend_from_slice(to.text().as_bytes())?;
    Ok(line)
}

/// A whole line of a word and two devices' names.
fn names_line(
    alloc: Global,
    word: &[u8],
    from: DeviceName,
    to: DeviceName,
) -> Result<Vec<u8>, OutOfMemory>
    ensures { IfOk result (λ line. line.items ≡ word.now ++ names_text from to ++ codes "\n") }
{
    let mut line = line_on(alloc, word, from, to)?;
    line.push(b'\n')?;
    Ok(line)
}

/// The line on a file that was ported.
pub fn ported_line(alloc: Global, from: DeviceName, to: DeviceName) -> Result<Vec<u8>, OutOfMemory>
    ensures { IfOk result (λ line. line.items ≡ ported_line from to) }
{
    names_line(alloc, b"ported ", from, to)
}

/// The line on two devices whose arrays differ.
pub fn unported_line(
    alloc: Global,
    from: DeviceName,
    to: DeviceName,
) -> Result<Vec<u8>, OutOfMemory>
    ensures { IfOk result (λ line. line.items ≡ unported_line from to) }
{
    names_line(alloc, b"error Unported ", from, to)
}

/// The line on fuse files that behave alike.
pub fn same_line(alloc: Global, from: DeviceName, to: DeviceName) -> Result<Vec<u8>, OutOfMemory>
    ensures { IfOk result (λ line. line.items ≡ same_line from to) }
{
    names_line(alloc, b"same ", from, to)
}

/// The line on a cell that has no counterpart in the other device.
pub fn no_counterpart_line(alloc: Global, pin: u8) -> Result<Vec<u8>, OutOfMemory>
    ensures { IfOk result (λ line. line.items ≡ no_counterpart_line pin) }
{
    let mut line = Vec::new(alloc);
    put_numbered(
        alloc,
        &mut line,
        b"error NoCounterpart pin ",
        usize::from(pin),
    )?;
    line.push(b'\n')?;
    Ok(line)
}
