//! The forms of directives, after their words.

ghost use Rattle.std.specs.Prelude.{◌≡◌, ◌<◌, ◌≤◌, ◌^◌, length, Some, None, IfOk, IfSome, IfNone};
ghost use Rattle.abel_macros.specs.Prelude.{ahead, joined};
ghost use Rattle.abel_macros.specs.Kept.{tables_of};
ghost use Rattle.abel_macros.specs.Pieces.{texts};
ghost use Rattle.abel_macros.specs.Rules as spec;

use crate::arguments::read_arguments;
use crate::blocks::read_block;
use crate::tables::Tables;
use crate::values::read_value;
use crate::words::{read_name, skip_sign};
use std::alloc::{AllocError, Global};
use text_pieces::{Ahead, Piece};

/// Reads an expression and the `;` after it.
pub fn read_terminated(
    alloc: Global,
    at: &mut Ahead,
    tables: &Tables,
) -> Result<Option<u32>, AllocError>
    ensures some { IfOk result (λ o. IfSome o (λ v. spec.terminated (tables_of tables.now) (ahead at.old) ≡ Some (v, ahead at.new))) }
    ensures none { IfOk result (λ o. IfNone o (spec.terminated (tables_of tables.now) (ahead at.old) ≡ None)) }
    ensures whole { at.new.whole ≡ at.old.whole }
    ensures further { at.old.passed ≤ at.new.passed }
{
    match read_value(alloc, at, tables)? {
        Some(value) => {
            if skip_sign(alloc, at, b";")? {
                Ok(Some(value))
            } else {
                Ok(None)
            }
        }
        None => Ok(None),
    }
}

/// Reads `= e ;`.
fn read_assigned(alloc: Global, at: &mut Ahead, tables: &Tables) -> Result<Option<u32>, AllocError>
    ensures some { IfOk result (λ o. IfSome o (λ v. spec.assigned (tables_of tables.now) (ahead at.old) ≡ Some (v, ahead at.new))) }
    ensures none { IfOk result (λ o. IfNone o (spec.assigned (tables_of tables.now) (ahead at.old) ≡ None)) }
    ensures whole { at.new.whole ≡ at.old.whole }
    ensures further { at.old.passed ≤ at.new.passed }
{
    if skip_sign(alloc, at, b"=")? {
        read_terminated(alloc, at, tables)
    } else {
        Ok(None)
    }
}

/// Reads the name and the value of `@CONST`.
pub fn read_const(
    alloc: Global,
    at: &mut Ahead,
    tables: &Tables,
) -> Result<Option<(Vec<u8>, u32)>, AllocError>
    ensures some { IfOk result (λ o. IfSome o (λ c. spec.const_form (tables_of tables.now) (ahead at.old) ≡ Some ((c.0.items, c.1), ahead at.new))) }
    ensures none { IfOk result (λ o. IfNone o (spec.const_form (tables_of tables.now) (ahead at.old) ≡ None)) }
    ensures whole { at.new.whole ≡ at.old.whole }
    ensures further { at.old.passed ≤ at.new.passed }
{
    match read_name(alloc, at)? {
        Some(name) => match read_assigned(alloc, at, tables)? {
            Some(value) => Ok(Some((name, value))),
            None => Ok(None),
        },
        None => Ok(None),
    }
}

/// Reads a number and a block, as after `@IF` and `@REPEAT`.
pub fn read_counted<'a>(
    alloc: Global,
    at: &mut Ahead<'_, 'a>,
    tables: &Tables,
) -> Result<Option<(u32, Vec<Piece<'a>>)>, AllocError>
    ensures some { IfOk result (λ o. IfSome o (λ c. spec.counted_form (tables_of tables.now) (ahead at.old) ≡ Some ((c.0, joined c.1.items), ahead at.new))) }
    ensures none { IfOk result (λ o. IfNone o (spec.counted_form (tables_of tables.now) (ahead at.old) ≡ None)) }
    ensures whole { at.new.whole ≡ at.old.whole }
    ensures further { at.old.passed ≤ at.new.passed }
{
    match read_value(alloc, at, tables)? {
        Some(value) => match read_block(alloc, at)? {
            Some(block) => Ok(Some((value, block))),
            None => Ok(None),
        },
        None => Ok(None),
    }
}

/// Reads a name and a block, as after `@IFDEF` and `@IFNDEF`, and says whether the name is defined.
pub fn read_defined<'a>(
    alloc: Global,
    at: &mut Ahead<'_, 'a>,
    tables: &Tables,
) -> Result<Option<(bool, Vec<Piece<'a>>)>, AllocError>
    ensures some { IfOk result (λ o. IfSome o (λ c. spec.defined_form (tables_of tables.now) (ahead at.old) ≡ Some ((c.0, joined c.1.items), ahead at.new))) }
    ensures none { IfOk result (λ o. IfNone o (spec.defined_form (tables_of tables.now) (ahead at.old) ≡ None)) }
    ensures whole { at.new.whole ≡ at.old.whole }
    ensures further { at.old.passed ≤ at.new.passed }
{
    match read_name(alloc, at)? {
        Some(name) => match read_block(alloc, at)? {
            Some(block) => Ok(Some((tables.is_defined(&name), block))),
            None => Ok(None),
        },
        None => Ok(None),
    }
}

/// Reads arguments and a block.
fn read_arguments_and_block<'a>(
    alloc: Global,
    at: &mut Ahead<'_, 'a>,
) -> Result<Option<(Vec<Vec<Piece<'a>>>, Vec<Piece<'a>>)>, AllocError>
    ensures some { IfOk result (λ o. IfSome o (λ c. spec.arguments_and_block (ahead at.old) ≡ Some ((texts c.0.items, joined c.1.items), ahead at.new))) }
    ensures none { IfOk result (λ o. IfNone o (spec.arguments_and_block (ahead at.old) ≡ None)) }
    ensures fits { IfOk result (λ o. IfSome o (λ c. length (joined c.1.items) < 2 ^ 63)) }
    ensures whole { at.new.whole ≡ at.old.whole }
    ensures further { at.old.passed ≤ at.new.passed }
{
    match read_arguments(alloc, at)? {
        Some(arguments) => match read_block(alloc, at)? {
            Some(block) => Ok(Some((arguments, block))),
            None => Ok(None),
        },
        None => Ok(None),
    }
}

/// What follows `@IRP`: a parameter, its arguments and a block.
#[derive(Drop)]
pub struct Each<'a> {
    pub parameter: Vec<u8>,
    pub arguments: Vec<Vec<Piece<'a>>>,
    pub block: Vec<Piece<'a>>,
}

/// Reads a parameter, its arguments and a block, as after `@IRP`.
pub fn read_each<'a>(alloc: Global, at: &mut Ahead<'_, 'a>) -> Result<Option<Each<'a>>, AllocError>
    ensures some { IfOk result (λ o. IfSome o (λ e. spec.each_form (ahead at.old) ≡ Some (spec.each_replaced e.parameter.items (texts e.arguments.items) (joined e.block.items), ahead at.new))) }
    ensures none { IfOk result (λ o. IfNone o (spec.each_form (ahead at.old) ≡ None)) }
    ensures fits { IfOk result (λ o. IfSome o (λ e. length (joined e.block.items) < 2 ^ 63)) }
    ensures whole { at.new.whole ≡ at.old.whole }
    ensures further { at.old.passed ≤ at.new.passed }
{
    match read_name(alloc, at)? {
        Some(parameter) => match read_arguments_and_block(alloc, at)? {
            Some((arguments, block)) => Ok(Some(Each {
                parameter,
                arguments,
                block,
            })),
            None => Ok(None),
        },
        None => Ok(None),
    }
}
