//! The fields of a fuse file that are kept when its fuses are replaced.

ghost use Rattle.std.specs.Prelude.{◌≡◌, ◌++◌, OnOk};
ghost use Rattle.spliced_files.specs.Kept.{behind_first, counts_fuses, is_kept, kept_line, kept_lines};
ghost use Rattle.spliced_files.specs.Prelude.{pieces};

use crate::pieces::piece_len;
use jedec_reader::{is_among, trimmed};
use pld_base::OutOfMemory;

/// Whether a `Q` field counts fuses or pins, by the text after its letter. Takes no memory.
fn counts_fuses(text: &[u8]) -> bool
    ensures { result ≡ counts_fuses text.now }
{
    match text.first() {
        Some(kind) => *kind == b'F' || *kind == b'P',
        None => false,
    }
}

/// Whether a field, which begins with its letter, doesn't speak of fuses. Takes no memory.
fn is_kept(field: &[u8]) -> bool
    ensures { result ≡ is_kept field.now }
{
    let [letter, text @ ..] = field else {
        return false;
    };
    if *letter == b'Q' {
        !counts_fuses(trimmed(text))
    } else {
        !is_among(b"FLCGEU", *letter)
    }
}

/// Appends a field's line if it is kept.
fn put_field(out: &mut Vec<u8>, field: &[u8]) -> Result<(), OutOfMemory>
    ensures { OnOk result (out.new.items ≡ out.old.items ++ kept_line field.now) }
{
    if is_kept(field) {
        out.extend_from_slice(field)?;
        out.extend_from_slice(b"*\r\n")?;
    }
    Ok(())
}

/// Appends the lines of the fields of a text that are kept.
fn put_fields(out: &mut Vec<u8>, text: &[u8]) -> Result<(), OutOfMemory>
    ensures { OnOk result (out.new.items ≡ out.old.items ++ kept_lines (pieces text.now)) }
{
    let mut rest = text;
    while let Some(length) = piece_len(rest) {
        put_field(out, trimmed(rest.split_at(length).0))?;
        rest = rest.split_at(length + 1).1;
    }
    put_field(out, trimmed(rest))
}

/// Appends the lines of the fields after the design text that are kept.
pub fn put_kept(out: &mut Vec<u8>, text: &[u8]) -> Result<(), OutOfMemory>
    ensures { OnOk result (out.new.items ≡ out.old.items ++ kept_lines (behind_first (pieces text.now))) }
{
    match piece_len(text) {
        Some(length) => put_fields(out, text.split_at(length + 1).1),
        None => Ok(()),
    }
}
