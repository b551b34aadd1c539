//! What one field says.

ghost use Rattle.std.specs.Prelude.{◌≡◌, if◌then◌else◌, true, Some, None, IfOk, option_map, option_and_then};
ghost use Rattle.jedec_reader.specs.Prelude.{all_ascii_digits, four_hex_value};
ghost use Rattle.std.specs.Str.Parse.{digits_value};
ghost use Rattle.jedec_file.specs.Fields as fields;
ghost use Rattle.jedec_file.specs.declared.field.Field.TheVariants as field;
ghost use Rattle.jedec_reader.specs.Letters.{is_vector};

use crate::entries::{are_test_characters, characters, is_among, is_each_pin, levels, pin_numbers};
use crate::words::{
    first_word, is_number, only_level, only_number, only_sum, short_number, trimmed,
};
use jedec_file::Field;
use pld_base::ListOf;
use pld_device::{Device, Loaded};
use std::alloc::{AllocError, Global};

/// What the field of a letter and the text after it says; `None` if it is no field.
#[tactic(auto, unfolding(jedec_file::specs::Fields::field_of))]
pub fn field_of<D: Device>(
    alloc: Global,
    device: &Loaded<D>,
    letter: u8,
    text: &[u8],
) -> Result<Option<Field>, AllocError>
    ensures { IfOk result (λ found. found ≡ fields.field_of D.table letter text.now) }
{
    match letter {
        b'Q' => Ok(counts(text)),
        b'F' => Ok(default_fuse(text)),
        b'L' => levels_field::<D>(alloc, device, text),
        b'C' => Ok(fuse_sum(text)),
        b'G' => Ok(security(text)),
        b'X' => Ok(default_test(text)),
        b'P' => order_field::<D>(alloc, device, text),
        b'V' => vector_field::<D>(alloc, device, text),
        _ => Ok(passed_over(letter)),
    }
}

/// `Q`: the numbers of fuses, pins and vectors; the last one is not compared.
fn counts(text: &[u8]) -> Option<Field>
    ensures { result ≡ fields.counts (fields.trimmed text.now) }
{
    let [kind, rest @ ..] = trimmed(text) else {
        return Some(Field::Passed);
    };
    match *kind {
        b'F' => Some(Field::FuseCount(only_number(rest)?)),
        b'P' => Some(Field::PinCount(only_number(rest)?)),
        b'V' => {
            only_number(rest)?;
            Some(Field::Passed)
        }
        _ => Some(Field::Passed),
    }
}

/// `F`: the level of fuses that are in no list.
fn default_fuse(text: &[u8]) -> Option<Field>
    ensures { result ≡ option_map field.DefaultFuse (fields.one_level (fields.words text.now)) }
{
    Some(Field::DefaultFuse(only_level(text)?))
}

/// `C`: the fuse sum.
fn fuse_sum(text: &[u8]) -> Option<Field>
    ensures { result ≡ option_map field.FuseSum
        (option_and_then four_hex_value (fields.only (fields.words text.now))) }
{
    Some(Field::FuseSum(only_sum(text)?))
}

/// `G`: the security fuse, which is passed over.
fn security(text: &[u8]) -> Option<Field>
    ensures { result ≡ option_map (λ level. field.Passed) (fields.one_level (fields.words text.now)) }
{
    only_level(text)?;
    Some(Field::Passed)
}

/// `X`: the level of pins that a test vector does not drive.
fn default_test(text: &[u8]) -> Option<Field>
    ensures { result ≡ option_map field.DefaultTest (fields.one_level (fields.words text.now)) }
{
    Some(Field::DefaultTest(only_level(text)?))
}

/// `N`, and the letters of testers.
fn passed_over(letter: u8) -> Option<Field>
    ensures { result ≡ (if fields.is_passed_over letter then Some field.Passed else None) }
{
    if is_among(b"NADEJRSTU", letter) {
        Some(Field::Passed)
    } else {
        None
    }
}

/// `L`: a fuse, and the levels from it on. Takes memory for the levels.
fn levels_field<D: Device>(
    alloc: Global,
    device: &Loaded<D>,
    text: &[u8],
) -> Result<Option<Field>, AllocError>
    ensures { IfOk result (λ found. found ≡ fields.levels_field D.table (fields.words text.now)) }
{
    let Some((first, rest)) = first_word(text) else {
        return Ok(None);
    };
    if !is_number(first) {
        return Ok(None);
    }
    match levels(alloc, rest)? {
        Some(levels) => Ok(levels_from::<D>(device, first, levels)),
        None => Ok(None),
    }
}

/// The levels from the fuse on that the number names; a number of any size goes with no levels.
fn levels_from<D: Device>(device: &Loaded<D>, first: &[u8], levels: Vec<bool>) -> Option<Field>
    requires { all_ascii_digits first.now ≡ true }
    ensures { result ≡ fields.levels_from D.table (digits_value 10 first.now) levels.items }
{
    if levels.is_empty() {
        return Some(Field::Passed);
    }
    let first = short_number(first)?;
    if usize::from(first) + levels.len() > usize::from(device.fuses()) {
        return None;
    }
    Some(Field::Levels(first, ListOf::from_vec(levels)))
}

/// `P`: the pin of each place of a vector. Takes memory for the pins.
fn order_field<D: Device>(
    alloc: Global,
    device: &Loaded<D>,
    text: &[u8],
) -> Result<Option<Field>, AllocError>
    ensures { IfOk result (λ found. found ≡ fields.order_field D.table (fields.words text.now)) }
{
    let Some(order) = pin_numbers(alloc, text)? else {
        return Ok(None);
    };
    if is_each_pin(device.pins(), &order) {
        return Ok(Some(Field::PinOrder(ListOf::from_vec(order))));
    }
    Ok(None)
}

/// `V`: a number, and a character for each pin. Takes memory for the characters.
fn vector_field<D: Device>(
    alloc: Global,
    device: &Loaded<D>,
    text: &[u8],
) -> Result<Option<Field>, AllocError>
    ensures { IfOk result (λ found. found ≡ fields.vector_field D.table (fields.words text.now)) }
{
    let Some((first, rest)) = first_word(text) else {
        return Ok(None);
    };
    let Some(number) = short_number(first) else {
        return Ok(None);
    };
    let characters = characters(alloc, rest)?;
    if is_vector(device.pins(), number, &characters) {
        return Ok(Some(Field::Vector(number, ListOf::from_vec(characters))));
    }
    Ok(None)
}

/// The number counts from 1, and each pin has a character of test vectors.
fn is_vector(pins: u8, number: u16, characters: &[u8]) -> bool
    ensures { result ≡ is_vector pins number characters.now }
{
    number != 0 && characters.len() == usize::from(pins) && are_test_characters(characters)
}
