//! What follows `@EXPR` and `@RADIX`.

ghost use Rattle.std.specs.Prelude.{◌≡◌, ◌≤◌, ◌++◌, Some, None, IfOk, IfSome, IfNone};
ghost use Rattle.abel_macros.specs.Prelude.{ahead, joined, known_radix};
ghost use Rattle.abel_macros.specs.Kept.{tables_of};
ghost use Rattle.abel_macros.specs.Values.{digits_in};
ghost use Rattle.abel_macros.specs.Rules as spec;

use crate::blocks::read_block;
use crate::gaps::{is_next, skip_gap};
use crate::readings::read_terminated;
use crate::tables::Tables;
use crate::words::{read_number, skip_sign};
use abel_lexer::{is_radix, number_value};
use std::alloc::{AllocError, Global};
use text_pieces::{Ahead, Piece};

/// Reads a block that may be there.
fn read_optional_block<'a>(
    alloc: Global,
    at: &mut Ahead<'_, 'a>,
) -> Result<Option<Vec<Piece<'a>>>, AllocError>
    ensures some { IfOk result (λ o. IfSome o (λ w. spec.optional_block (ahead at.old) ≡ Some (joined w.items, ahead at.new))) }
    ensures none { IfOk result (λ o. IfNone o (spec.optional_block (ahead at.old) ≡ None)) }
    ensures whole { at.new.whole ≡ at.old.whole }
    ensures further { at.old.passed ≤ at.new.passed }
{
    let mut look = at.fork();
    skip_gap(&mut look);
    if is_next(&look, b'{') {
        read_block(alloc, at)
    } else {
        Ok(Some(Vec::new(alloc)))
    }
}

/// Reads a block that may be there and a value, as after `@EXPR`.
pub fn read_expression<'a>(
    alloc: Global,
    at: &mut Ahead<'_, 'a>,
    tables: &Tables,
) -> Result<Option<(Vec<Piece<'a>>, u32)>, AllocError>
    ensures some { IfOk result (λ o. IfSome o (λ e. spec.value_form (tables_of tables.now) (ahead at.old) ≡ Some (joined e.0.items ++ digits_in 32 tables.now.radix e.1, ahead at.new))) }
    ensures none { IfOk result (λ o. IfNone o (spec.value_form (tables_of tables.now) (ahead at.old) ≡ None)) }
    ensures whole { at.new.whole ≡ at.old.whole }
    ensures further { at.old.passed ≤ at.new.passed }
{
    match read_optional_block(alloc, at)? {
        Some(block) => match read_terminated(alloc, at, tables)? {
            Some(value) => Ok(Some((block, value))),
            None => Ok(None),
        },
        None => Ok(None),
    }
}

/// The radix that a number says, if it is one of the four.
#[tactic(auto, unfolding(abel_lexer::specs::Lengths::known_radix))]
fn known_radix(radix: u32, number: &[u8]) -> Option<u32>
    requires low { 2 ≤ radix }
    requires high { radix ≤ 16 }
    ensures some { IfSome result (λ n. known_radix radix number.now ≡ Some n) }
    ensures within { IfSome result (λ n. (2 ≤ n) × (n ≤ 16)) }
    ensures none { IfNone result (known_radix radix number.now ≡ None) }
{
    let value = number_value(radix, number)?;
    if is_radix(value) { Some(value) } else { None }
}

/// Reads a number that says one of the four radices.
fn read_radix_number(alloc: Global, at: &mut Ahead, radix: u32) -> Result<Option<u32>, AllocError>
    requires low { 2 ≤ radix }
    requires high { radix ≤ 16 }
    ensures some { IfOk result (λ o. IfSome o (λ n. spec.radix_number radix (ahead at.old) ≡ Some (n, ahead at.new))) }
    ensures within { IfOk result (λ o. IfSome o (λ n. (2 ≤ n) × (n ≤ 16))) }
    ensures none { IfOk result (λ o. IfNone o (spec.radix_number radix (ahead at.old) ≡ None)) }
    ensures whole { at.new.whole ≡ at.old.whole }
    ensures further { at.old.passed ≤ at.new.passed }
{
    skip_gap(at);
    match read_number(alloc, at)? {
        Some(number) => Ok(known_radix(radix, &number)),
        None => Ok(None),
    }
}

/// Reads the number and the `;` of `@RADIX`.
pub fn read_radix(alloc: Global, at: &mut Ahead, radix: u32) -> Result<Option<u32>, AllocError>
    requires low { 2 ≤ radix }
    requires high { radix ≤ 16 }
    ensures some { IfOk result (λ o. IfSome o (λ n. spec.radix_form radix (ahead at.old) ≡ Some (n, ahead at.new))) }
    ensures within { IfOk result (λ o. IfSome o (λ n. (2 ≤ n) × (n ≤ 16))) }
    ensures none { IfOk result (λ o. IfNone o (spec.radix_form radix (ahead at.old) ≡ None)) }
    ensures whole { at.new.whole ≡ at.old.whole }
    ensures further { at.old.passed ≤ at.new.passed }
{
    match read_radix_number(alloc, at, radix)? {
        Some(known) => {
            if skip_sign(alloc, at, b";")? {
                Ok(Some(known))
            } else {
                Ok(None)
            }
        }
        None => Ok(None),
    }
}
