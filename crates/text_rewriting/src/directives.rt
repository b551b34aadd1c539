//! The rules of directives, after their words.

ghost use Rattle.std.specs.Prelude.{◌≡◌, ◌≤◌, IfOk};
ghost use Rattle.abel_macros.specs.declared.directive.Directive.TheVariants as directive;
ghost use Rattle.text_rewriting.specs.RuleMoves.{IsDirected, Fits};

use crate::rules::{Rewriting, Rule};
use abel_macros::{
    Directive, Tables, read_const, read_counted, read_defined, read_each, read_expression,
    read_radix,
};
use std::alloc::{AllocError, Global};
use text_pieces::Ahead;

/// Reads what follows `@CONST`.
fn const_rule<'t, 'a>(
    alloc: Global,
    at: &mut Ahead<'_, 'a>,
    tables: &'t Tables<'a>,
) -> Result<Rule<'t, 'a>, AllocError>
    ensures moves { IfOk result (λ r. IsDirected directive.Const tables.now at.old at.new r) }
    ensures fits { IfOk result (λ r. Fits tables.now r) }
    ensures whole { at.new.whole ≡ at.old.whole }
    ensures further { at.old.passed ≤ at.new.passed }
{
    match read_const(alloc, at, tables)? {
        Some((name, value)) => Ok(Rule::Keep(name, value)),
        None => Ok(Rule::BadDirective),
    }
}

/// Reads what follows `@IF`.
#[tactic(auto, using(crate::proofs::Moves::zero_takes_none, crate::proofs::Moves::other_takes_all))]
fn if_rule<'t, 'a>(
    alloc: Global,
    at: &mut Ahead<'_, 'a>,
    tables: &'t Tables<'a>,
) -> Result<Rule<'t, 'a>, AllocError>
    ensures moves { IfOk result (λ r. IsDirected directive.If tables.now at.old at.new r) }
    ensures fits { IfOk result (λ r. Fits tables.now r) }
    ensures whole { at.new.whole ≡ at.old.whole }
    ensures further { at.old.passed ≤ at.new.passed }
{
    match read_counted(alloc, at, tables)? {
        Some((value, block)) => {
            if value == 0 {
                Ok(Rule::Rewrite(Rewriting::Nothing))
            } else {
                Ok(Rule::Rewrite(Rewriting::Block(block)))
            }
        }
        None => Ok(Rule::BadDirective),
    }
}

/// Reads what follows `@IFDEF`.
fn defined_rule<'t, 'a>(
    alloc: Global,
    at: &mut Ahead<'_, 'a>,
    tables: &'t Tables<'a>,
) -> Result<Rule<'t, 'a>, AllocError>
    ensures moves { IfOk result (λ r. IsDirected directive.IfDefined tables.now at.old at.new r) }
    ensures fits { IfOk result (λ r. Fits tables.now r) }
    ensures whole { at.new.whole ≡ at.old.whole }
    ensures further { at.old.passed ≤ at.new.passed }
{
    match read_defined(alloc, at, tables)? {
        Some((defined, block)) => {
            if defined {
                Ok(Rule::Rewrite(Rewriting::Block(block)))
            } else {
                Ok(Rule::Rewrite(Rewriting::Nothing))
            }
        }
        None => Ok(Rule::BadDirective),
    }
}

/// Reads what follows `@IFNDEF`.
fn undefined_rule<'t, 'a>(
    alloc: Global,
    at: &mut Ahead<'_, 'a>,
    tables: &'t Tables<'a>,
) -> Result<Rule<'t, 'a>, AllocError>
    ensures moves { IfOk result (λ r. IsDirected directive.IfUndefined tables.now at.old at.new r) }
    ensures fits { IfOk result (λ r. Fits tables.now r) }
    ensures whole { at.new.whole ≡ at.old.whole }
    ensures further { at.old.passed ≤ at.new.passed }
{
    match read_defined(alloc, at, tables)? {
        Some((defined, block)) => {
            if defined {
                Ok(Rule::Rewrite(Rewriting::Nothing))
            } else {
                Ok(Rule::Rewrite(Rewriting::Block(block)))
            }
        }
        None => Ok(Rule::BadDirective),
    }
}

/// Reads what follows `@IRP`.
fn each_rule<'t, 'a>(
    alloc: Global,
    at: &mut Ahead<'_, 'a>,
    tables: &'t Tables<'a>,
) -> Result<Rule<'t, 'a>, AllocError>
    ensures moves { IfOk result (λ r. IsDirected directive.Each tables.now at.old at.new r) }
    ensures fits { IfOk result (λ r. Fits tables.now r) }
    ensures whole { at.new.whole ≡ at.old.whole }
    ensures further { at.old.passed ≤ at.new.passed }
{
    match read_each(alloc, at)? {
        Some(each) => Ok(Rule::Rewrite(Rewriting::Each(each))),
        None => Ok(Rule::BadDirective),
    }
}

/// Reads what follows `@REPEAT`.
fn repeat_rule<'t, 'a>(
    alloc: Global,
    at: &mut Ahead<'_, 'a>,
    tables: &'t Tables<'a>,
) -> Result<Rule<'t, 'a>, AllocError>
    ensures moves { IfOk result (λ r. IsDirected directive.Repeat tables.now at.old at.new r) }
    ensures fits { IfOk result (λ r. Fits tables.now r) }
    ensures whole { at.new.whole ≡ at.old.whole }
    ensures further { at.old.passed ≤ at.new.passed }
{
    match read_counted(alloc, at, tables)? {
        Some((count, block)) => Ok(Rule::Rewrite(Rewriting::Repeated(count, block))),
        None => Ok(Rule::BadDirective),
    }
}

/// Reads what follows `@EXPR`.
#[tactic(auto, using(crate::proofs::Moves::value_moves))]
fn value_rule<'t, 'a>(
    alloc: Global,
    at: &mut Ahead<'_, 'a>,
    tables: &'t Tables<'a>,
) -> Result<Rule<'t, 'a>, AllocError>
    ensures moves { IfOk result (λ r. IsDirected directive.Value tables.now at.old at.new r) }
    ensures fits { IfOk result (λ r. Fits tables.now r) }
    ensures whole { at.new.whole ≡ at.old.whole }
    ensures further { at.old.passed ≤ at.new.passed }
{
    match read_expression(alloc, at, tables)? {
        Some((block, value)) => Ok(Rule::Rewrite(Rewriting::Valued(block, value, tables.radix()))),
        None => Ok(Rule::BadDirective),
    }
}

/// Reads what follows `@RADIX`.
fn radix_rule<'t, 'a>(
    alloc: Global,
    at: &mut Ahead<'_, 'a>,
    tables: &'t Tables<'a>,
) -> Result<Rule<'t, 'a>, AllocError>
    ensures moves { IfOk result (λ r. IsDirected directive.Radix tables.now at.old at.new r) }
    ensures fits { IfOk result (λ r. Fits tables.now r) }
    ensures whole { at.new.whole ≡ at.old.whole }
    ensures further { at.old.passed ≤ at.new.passed }
{
    match read_radix(alloc, at, tables.radix())? {
        Some(radix) => Ok(Rule::Radix(radix)),
        None => Ok(Rule::BadDirective),
    }
}

/// Reads what follows a directive's word.
pub fn directed_rule<'t, 'a>(
    alloc: Global,
    at: &mut Ahead<'_, 'a>,
    tables: &'t Tables<'a>,
    directive: Directive,
) -> Result<Rule<'t, 'a>, AllocError>
    ensures moves { IfOk result (λ r. IsDirected directive tables.now at.old at.new r) }
    ensures fits { IfOk result (λ r. Fits tables.now r) }
    ensures whole { at.new.whole ≡ at.old.whole }
    ensures further { at.old.passed ≤ at.new.passed }
{
    match directive {
        Directive::Const => const_rule(alloc, at, tables),
        Directive::If => if_rule(alloc, at, tables),
        Directive::IfDefined => defined_rule(alloc, at, tables),
        Directive::IfUndefined => undefined_rule(alloc, at, tables),
        Directive::Each => each_rule(alloc, at, tables),
        Directive::Repeat => repeat_rule(alloc, at, tables),
        Directive::Value => value_rule(alloc, at, tables),
        Directive::Radix => radix_rule(alloc, at, tables),
        Directive::DontCare => Ok(Rule::Copy),
        Directive::LeftOut => Ok(Rule::Unsupported),
        Directive::Unknown => Ok(Rule::BadDirective),
    }
}
