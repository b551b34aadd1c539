//! What a line of the report says, and its text.

ghost use Rattle.std.specs.Prelude.{◌≡◌, ◌++◌, Some, IfOk, OnOk};
ghost use Rattle.reports.specs.Prelude.{option_map, decimal};
ghost use Rattle.reports.specs.RefusalTold.{line_head, tail_text, told_line, plain, with_name_if};

use pld_base::{OutOfMemory, Place, put_decimal};
use std::alloc::Global;
use std::marker::Model;

/// The word of a refusal, its place, and the name that is reported with it.
#[derive(Drop)]
pub(crate) struct Telling<'a> {
    pub word: &'a [u8],
    pub place: Place,
    pub name: Option<&'a [u8]>,
}

impl<'a> Model for Telling<'a> {
    ghost use Rattle.std.specs.Option.{option_map};
    ghost use Rattle.reports.specs.RefusalTold as spec;

    ghost Value = { spec.Telling };

    ghost view = { λ t. record { word = t.word.now; place = t.place; name = option_map (λ n. n.now) t.name } };
}

/// Appends a number and a piece after it.
fn put_numbered(
    alloc: Global,
    text: &mut Vec<u8>,
    number: u32,
    piece: &[u8],
) -> Result<(), OutOfMemory>
    ensures { OnOk result (text.new.items ≡ text.old.items ++ (decimal number ++ piece.now)) }
{
    put_decimal(alloc, text, number as usize)?;
    text.extend_from_slice(piece)?;
    Ok(())
}

/// Appends a blank and a name, if there is one.
pub fn put_tail(text: &mut Vec<u8>, name: Option<&[u8]>) -> Result<(), OutOfMemory>
    ensures { OnOk result (text.new.items ≡ text.old.items ++ tail_text (option_map (λ n. n.now) name.entry)) }
{
    if let Some(name) = name {
        text.push(b' ')?;
        text.extend_from_slice(name)?;
    }
    Ok(())
}

/// `error WORD at LINE:COLUMN`, with which each line begins.
pub fn begin_line(alloc: Global, word: &[u8], place: Place) -> Result<Vec<u8>, OutOfMemory>
    ensures { IfOk result (λ line. line.items ≡ line_head word.now place) }
{
    let mut line = Vec::from_slice(alloc, b"error ")?;
    line.extend_from_slice(word)?;
    line.extend_from_slice(b" at ")?;
    put_numbered(alloc, &mut line, place.line, b":")?;
    put_numbered(alloc, &mut line, place.column, b"")?;
    Ok(line)
}

impl<'a> Telling<'a> {
    /// A refusal without a name.
    pub fn plain(word: &'a [u8], place: Place) -> Telling<'a>
        ensures { Some result ≡ plain word.now place }
    {
        Telling {
            word,
            place,
            name: None,
        }
    }

    /// A refusal with a name that may be there.
    pub fn named(word: &'a [u8], place: Place, name: Option<&'a [u8]>) -> Telling<'a>
        ensures { Some result ≡ with_name_if word.now place (option_map (λ n. n.now) name.entry) }
    {
        Telling { word, place, name }
    }

    /// The line of the report.
    pub fn line(&self, alloc: Global) -> Result<Vec<u8>, OutOfMemory>
        ensures { IfOk result (λ line. line.items ≡ told_line self.now) }
    {
        let mut line = begin_line(alloc, self.word, self.place)?;
        put_tail(&mut line, self.name)?;
        line.push(b'\n')?;
        Ok(line)
    }
}
