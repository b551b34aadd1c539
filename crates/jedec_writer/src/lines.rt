//! Single lines of the file.

ghost use Rattle.std.specs.Prelude.{◌≡◌, ◌∷◌, ◌++◌, map, OnOk, codes};
ghost use Rattle.std.specs.List.{list_any};
ghost use Rattle.std.specs.Fmt.{decimal};
ghost use Rattle.jedec_file.specs.CanonicalFile.{levels_line};
ghost use Rattle.jedec_file.specs.FileText.{four_hex, level_char, line};

use pld_base::{OutOfMemory, put_decimal, put_four_digits, put_hex};
use std::alloc::Global;

/// Ends a field and its line.
pub fn put_end(out: &mut Vec<u8>) -> Result<(), OutOfMemory>
    ensures { OnOk result (out.new.items ≡ out.old.items ++ codes "*\r\n") }
{
    out.extend_from_slice(b"*\r\n")?;
    Ok(())
}

/// The levels as characters.
fn put_levels(out: &mut Vec<u8>, levels: &[bool]) -> Result<(), OutOfMemory>
    ensures { OnOk result (out.new.items ≡ out.old.items ++ map level_char levels.now) }
{
    for level in levels {
        out.push(if *level { b'1' } else { b'0' })?;
    }
    Ok(())
}

/// Whether some fuse is opened. Takes no memory.
fn is_any_opened(levels: &[bool]) -> bool
    ensures { result ≡ list_any (λ level. level) levels.now }
{
    levels.iter().any(|level| *level)
}

/// The line of the fuses from number `first` on, if some fuse is opened.
pub fn put_levels_line(out: &mut Vec<u8>, first: u16, levels: &[bool]) -> Result<(), OutOfMemory>
    ensures { OnOk result (out.new.items ≡ out.old.items ++ levels_line first levels.now) }
{
    if is_any_opened(levels) {
        out.push(b'L')?;
        put_four_digits(out, first)?;
        out.push(b' ')?;
        put_levels(out, levels)?;
        put_end(out)?;
    }
    Ok(())
}

/// The line of a number after its letters.
pub fn put_counted(
    alloc: Global,
    out: &mut Vec<u8>,
    letters: &[u8],
    number: usize,
) -> Result<(), OutOfMemory>
    ensures { OnOk result (out.new.items ≡ out.old.items ++ line (letters.now ++ decimal number)) }
{
    out.extend_from_slice(letters)?;
    put_decimal(alloc, out, number)?;
    put_end(out)
}

/// The line of the fuse sum.
pub fn put_fuse_sum(out: &mut Vec<u8>, sum: u16) -> Result<(), OutOfMemory>
    ensures { OnOk result (out.new.items ≡ out.old.items ++ line (codes "C" ++ four_hex sum)) }
{
    out.push(b'C')?;
    put_hex(out, sum)?;
    put_end(out)
}
