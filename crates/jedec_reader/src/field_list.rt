//! The fields of a fuse file, one after another.

ghost use Rattle.std.specs.Prelude.{◌≡◌, ◌+◌, ◌^◌, ◌<◌, ◌-◌, ◌∷◌, [], IfOk, IfSome, MatchOption, All, length, take, drop};
ghost use Rattle.jedec_file.specs.FieldLists as lists;
ghost use Rattle.jedec_reader.specs.Prelude.{trimmed, Gives};
ghost use Rattle.jedec_reader.specs.FieldFits.{FieldFits};
ghost use Rattle.jedec_reader.specs.Letters.{letter_at};
ghost use Rattle.jedec_reader.specs.FieldsIn.{fields_in};

use crate::entries::is_among;
use crate::field::field_of;
use crate::frame::{frame_of, place_of};
use crate::words::trimmed;
use jedec_file::{Field, JedecFault};
use pld_device::{Device, Loaded};
use std::alloc::Global;

/// The fields of a fuse file's bytes, in order.
///
/// Takes memory for the fields and for what each of them lists.
pub fn fields<D: Device>(
    alloc: Global,
    device: &Loaded<D>,
    bytes: &[u8],
) -> Result<Vec<Field>, JedecFault>
    requires { length bytes.now < 2 ^ 32 }
    ensures fields { Gives (λ v. v.items) result (fields_in D.table bytes.now) }
    ensures fits { IfOk result (λ v. All (FieldFits D.table) v.items) }
{
    let (at, text) = frame_of(bytes)?;
    behind_design::<D>(alloc, device, at, text)
}

/// The fields after the design text, which begins at the offset and has its asterisk.
#[tactic(auto, unfolding(jedec_file::specs::FieldLists::behind_design))]
fn behind_design<D: Device>(
    alloc: Global,
    device: &Loaded<D>,
    at: usize,
    text: &[u8],
) -> Result<Vec<Field>, JedecFault>
    requires { at + length text.now < 2 ^ 32 }
    ensures { Gives (λ v. v.items) result (lists.behind_design D.table at (lists.pieces text.now)) }
{
    let Some(length) = piece_len(text) else {
        return Err(JedecFault::BadField(at + text.len()));
    };
    fields_from::<D>(alloc, device, at + length + 1, text.split_at(length + 1).1)
}

/// The fields of a text that begins at the offset.
fn fields_from<D: Device>(
    alloc: Global,
    device: &Loaded<D>,
    at: usize,
    text: &[u8],
) -> Result<Vec<Field>, JedecFault>
    requires { at + length text.now < 2 ^ 32 }
    ensures { Gives (λ v. v.items) result (lists.fields_from D.table at (lists.pieces text.now)) }
{
    let mut fields = Vec::new(alloc);
    let mut place = at;
    let mut rest = text;
    while let Some(length) = piece_len(rest) {
        let field = field_of_piece::<D>(alloc, device, place, rest.split_at(length).0)?;
        fields.push(field)?;
        place += length + 1;
        rest = rest.split_at(length + 1).1;
    }
    ends_blank(place, rest)?;
    Ok(fields)
}

/// How many bytes precede the first asterisk.
fn piece_len(text: &[u8]) -> Option<usize>
    ensures pieces { MatchOption result
        (lists.pieces text.now ≡ text.now ∷ [])
        (λ k. lists.pieces text.now
        ≡ take k text.now ∷ lists.pieces (drop (k + 1) text.now)) }
    ensures within { IfSome result (λ k. k < length text.now) }
{
    place_of(text, b'*')
}

/// The field of a piece that begins at the offset and has its asterisk.
fn field_of_piece<D: Device>(
    alloc: Global,
    device: &Loaded<D>,
    at: usize,
    piece: &[u8],
) -> Result<Field, JedecFault>
    requires { at + length piece.now < 2 ^ 32 }
    ensures { Gives (λ field. field) result
        (lists.field_at D.table (letter_at at piece.now) (trimmed piece.now)) }
{
    let text = trimmed(piece);
    field_at::<D>(alloc, device, at + (piece.len() - text.len()), text)
}

/// The field whose letter is at the offset.
#[tactic(auto, unfolding(jedec_file::specs::FieldLists::field_at))]
fn field_at<D: Device>(
    alloc: Global,
    device: &Loaded<D>,
    at: usize,
    text: &[u8],
) -> Result<Field, JedecFault>
    ensures { Gives (λ field. field) result (lists.field_at D.table at text.now) }
{
    let [letter, rest @ ..] = text else {
        return Err(JedecFault::BadField(at));
    };
    if *letter == b'K' {
        return Err(JedecFault::UnsupportedField(at));
    }
    match field_of::<D>(alloc, device, *letter, rest)? {
        Some(field) => Ok(field),
        None => Err(JedecFault::BadField(at)),
    }
}

/// After the last asterisk, if the piece begins at the offset, there are only blanks.
fn ends_blank(at: usize, piece: &[u8]) -> Result<(), JedecFault>
    requires { at + length piece.now < 2 ^ 32 }
    ensures { Gives (λ done. []) result
        (lists.no_field (letter_at at piece.now) (at + length piece.now) (trimmed piece.now)) }
{
    let text = trimmed(piece);
    no_field(at + (piece.len() - text.len()), at + piece.len(), text)
}

/// No field begins at the first offset, in the text up to the second one that has no asterisk.
#[tactic(auto, unfolding(jedec_file::specs::FieldLists::no_field))]
fn no_field(at: usize, ends: usize, text: &[u8]) -> Result<(), JedecFault>
    ensures { Gives (λ done. []) result (lists.no_field at ends text.now) }
{
    let Some(letter) = text.first() else {
        return Ok(());
    };
    if *letter == b'K' {
        return Err(JedecFault::UnsupportedField(at));
    }
    if is_among(b"QFLCGXPVNADEJRSTU", *letter) {
        return Err(JedecFault::BadField(ends));
    }
    Err(JedecFault::BadField(at))
}
