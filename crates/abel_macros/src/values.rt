//! The expressions of directives: items with operators between them, read by priority.

ghost use Rattle.std.specs.Prelude.{◌≡◌, ◌+◌, ◌*◌, ◌<◌, ◌≤◌, length, Some, None, IfOk, OnOk, IfSome, IfNone};
ghost use Rattle.abel_macros.specs.Prelude.{ahead};
ghost use Rattle.abel_macros.specs.Gaps as gaps;
ghost use Rattle.abel_macros.specs.Values as spec;
ghost use Rattle.abel_macros.specs.declared.operator.Prefix.TheVariants as prefix;
ghost use Rattle.abel_macros.specs.Kept.{tables_of};
ghost use Rattle.abel_macros.specs.Rules.{value_at};

use crate::gaps::skip_gap;
use crate::operator::{Operator, Prefix, Priority};
use crate::tables::Tables;
use crate::words::{read_number, read_sign, read_word, skip_sign};
use abel_lexer::number_value;
use std::alloc::{AllocError, Global};
use text_pieces::Ahead;

/// A number, or a name that has a value.
fn read_primary(alloc: Global, at: &mut Ahead, tables: &Tables) -> Result<Option<u32>, AllocError>
    ensures some { IfOk result (λ o. IfSome o (λ v. spec.primary tables.now.radix (tables_of tables.now).values (ahead at.old) ≡ Some (v, ahead at.new))) }
    ensures none { IfOk result (λ o. IfNone o (spec.primary tables.now.radix (tables_of tables.now).values (ahead at.old) ≡ None)) }
    ensures whole { at.new.whole ≡ at.old.whole }
    ensures further { at.old.passed ≤ at.new.passed }
{
    match read_number(alloc, at)? {
        Some(number) => Ok(number_value(tables.radix(), &number)),
        None => match read_word(alloc, at)? {
            Some(name) => Ok(tables.value(&name)),
            None => Ok(None),
        },
    }
}

/// The sign ahead, blanks and comments before it passed over; nothing is read.
fn sign_ahead(alloc: Global, at: &Ahead) -> Result<Vec<u8>, AllocError>
    ensures { IfOk result (λ s. s.items ≡ gaps.sign (gaps.gap (ahead at.now))) }
{
    let mut look = at.fork();
    read_sign(alloc, &mut look)
}

/// Reads what precedes an operand; a sign that isn't one of the three stays ahead.
#[tactic(auto, using(crate::proofs::Operands::sign_taken))]
fn read_prefix(alloc: Global, at: &mut Ahead) -> Result<Prefix, AllocError>
    ensures prefix { IfOk result (λ p. p ≡ spec.prefix_of (gaps.sign (gaps.gap (ahead at.old)))) }
    ensures ahead { IfOk result (λ p. ahead at.new ≡ spec.past_prefix p (ahead at.old)) }
    ensures whole { at.new.whole ≡ at.old.whole }
    ensures further { at.old.passed ≤ at.new.passed }
{
    let prefix = Prefix::of(&sign_ahead(alloc, at)?);
    match prefix {
        Prefix::Plain => {
            skip_gap(at);
            Ok(Prefix::Plain)
        }
        _ => {
            let _sign = read_sign(alloc, at)?;
            Ok(prefix)
        }
    }
}

/// An operand: a primary, or an operand after `!` or `-`, or an expression in parentheses; so many of
/// the three may be nested.
#[cycle(expression)]
fn read_operand(
    alloc: Global,
    at: &mut Ahead,
    tables: &Tables,
    most: u32,
) -> Result<Option<u32>, AllocError>
    ensures some { IfOk result (λ o. IfSome o (λ v. spec.operand most tables.now.radix (tables_of tables.now).values (ahead at.old) ≡ Some (v, ahead at.new))) }
    ensures none { IfOk result (λ o. IfNone o (spec.operand most tables.now.radix (tables_of tables.now).values (ahead at.old) ≡ None)) }
    ensures whole { at.new.whole ≡ at.old.whole }
    ensures further { at.old.passed ≤ at.new.passed }
{
    let prefix = read_prefix(alloc, at)?;
    match prefix {
        Prefix::Plain => read_primary(alloc, at, tables),
        _ => {
            if most == 0 {
                Ok(None)
            } else {
                read_prefixed(alloc, at, tables, most - 1, prefix)
            }
        }
    }
}

/// What follows a prefix of an operand, and what the prefix makes of it.
#[cycle(expression)]
fn read_prefixed(
    alloc: Global,
    at: &mut Ahead,
    tables: &Tables,
    most: u32,
    prefix: Prefix,
) -> Result<Option<u32>, AllocError>
    ensures some { IfOk result (λ o. IfSome o (λ v. spec.prefixed prefix most tables.now.radix (tables_of tables.now).values (ahead at.old) ≡ Some (v, ahead at.new))) }
    ensures none { IfOk result (λ o. IfNone o (spec.prefixed prefix most tables.now.radix (tables_of tables.now).values (ahead at.old) ≡ None)) }
    ensures whole { at.new.whole ≡ at.old.whole }
    ensures further { at.old.passed ≤ at.new.passed }
{
    match prefix {
        Prefix::Not => match read_operand(alloc, at, tables, most)? {
            Some(value) => Ok(Some(!value)),
            None => Ok(None),
        },
        Prefix::Minus => match read_operand(alloc, at, tables, most)? {
            Some(value) => Ok(Some(value.wrapping_neg())),
            None => Ok(None),
        },
        Prefix::Open => match read_chain(alloc, at, tables, Priority::Relation, most)? {
            Some(value) => closed(alloc, at, value),
            None => Ok(None),
        },
        Prefix::Plain => read_primary(alloc, at, tables),
    }
}

/// A value, if a closing parenthesis follows its expression.
fn closed(alloc: Global, at: &mut Ahead, value: u32) -> Result<Option<u32>, AllocError>
    ensures some { IfOk result (λ o. IfSome o (λ v. spec.closed value (ahead at.old) ≡ Some (v, ahead at.new))) }
    ensures none { IfOk result (λ o. IfNone o (spec.closed value (ahead at.old) ≡ None)) }
    ensures whole { at.new.whole ≡ at.old.whole }
    ensures further { at.old.passed ≤ at.new.passed }
{
    if skip_sign(alloc, at, b")")? {
        Ok(Some(value))
    } else {
        Ok(None)
    }
}

/// What operators of a priority are between.
#[cycle(expression)]
fn read_item(
    alloc: Global,
    at: &mut Ahead,
    tables: &Tables,
    priority: Priority,
    most: u32,
) -> Result<Option<u32>, AllocError>
    ensures some { IfOk result (λ o. IfSome o (λ v. spec.item priority (spec.operand most tables.now.radix (tables_of tables.now).values) (ahead at.old) ≡ Some (v, ahead at.new))) }
    ensures none { IfOk result (λ o. IfNone o (spec.item priority (spec.operand most tables.now.radix (tables_of tables.now).values) (ahead at.old) ≡ None)) }
    ensures whole { at.new.whole ≡ at.old.whole }
    ensures further { at.old.passed ≤ at.new.passed }
{
    match priority {
        Priority::Relation => read_chain(alloc, at, tables, Priority::Sum, most),
        Priority::Sum => read_chain(alloc, at, tables, Priority::Product, most),
        Priority::Product => read_operand(alloc, at, tables, most),
    }
}

/// Reads the operator of a priority that is ahead; without one nothing is read.
fn read_operator(
    alloc: Global,
    at: &mut Ahead,
    priority: Priority,
) -> Result<Option<Operator>, AllocError>
    ensures operator { IfOk result (λ o. o ≡ spec.operator_of priority (gaps.sign (gaps.gap (ahead at.old)))) }
    ensures some { IfOk result (λ o. IfSome o (λ v. ahead at.new ≡ gaps.behind_sign (ahead at.old))) }
    ensures none { IfOk result (λ o. IfNone o (at.new ≡ at.old)) }
    ensures whole { at.new.whole ≡ at.old.whole }
    ensures further { at.old.passed ≤ at.new.passed }
{
    match Operator::of(priority, &sign_ahead(alloc, at)?) {
        Some(operator) => {
            let _sign = read_sign(alloc, at)?;
            Ok(Some(operator))
        }
        None => Ok(None),
    }
}

/// Items with operators of a priority between them, from the left.
#[cycle(expression)]
#[tactic(auto, using(crate::proofs::Chains::chain_out, crate::proofs::Chains::chain_ends, crate::proofs::Chains::chain_broken, crate::proofs::Chains::chain_undefined, crate::proofs::Chains::chain_goes_on))]
fn read_chain(
    alloc: Global,
    at: &mut Ahead,
    tables: &Tables,
    priority: Priority,
    most: u32,
) -> Result<Option<u32>, AllocError>
    ensures some { IfOk result (λ o. IfSome o (λ v. spec.level priority (spec.operand most tables.now.radix (tables_of tables.now).values) (ahead at.old) ≡ Some (v, ahead at.new))) }
    ensures none { IfOk result (λ o. IfNone o (spec.level priority (spec.operand most tables.now.radix (tables_of tables.now).values) (ahead at.old) ≡ None)) }
    ensures whole { at.new.whole ≡ at.old.whole }
    ensures further { at.old.passed ≤ at.new.passed }
{
    let longest = at.left();
    let Some(first) = read_item(alloc, at, tables, priority, most)? else {
        return Ok(None);
    };
    let mut value = first;
    let mut more = longest;
    'items: while more > 0 {
        let Some(operator) = read_operator(alloc, at, priority)? else {
            return Ok(Some(value));
        };
        let Some(item) = read_item(alloc, at, tables, priority, most)? else {
            return Ok(None);
        };
        let Some(next) = operator.applied(value, item) else {
            return Ok(None);
        };
        value = next;
        more -= 1;
    }
    Ok(Some(value))
}

/// The value of the expression ahead.
pub fn read_value(alloc: Global, at: &mut Ahead, tables: &Tables) -> Result<Option<u32>, AllocError>
    ensures some { IfOk result (λ o. IfSome o (λ v. value_at (tables_of tables.now) (ahead at.old) ≡ Some (v, ahead at.new))) }
    ensures none { IfOk result (λ o. IfNone o (value_at (tables_of tables.now) (ahead at.old) ≡ None)) }
    ensures whole { at.new.whole ≡ at.old.whole }
    ensures further { at.old.passed ≤ at.new.passed }
{
    read_chain(alloc, at, tables, Priority::Relation, 64)
}
