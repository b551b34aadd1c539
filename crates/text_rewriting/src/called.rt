//! The rules of names: definitions and calls.

ghost use Rattle.std.specs.Prelude.{◌≡◌, ◌≤◌, false, Some, None, IfOk, IfSome, IfNone};
ghost use Rattle.text_rewriting.specs.Prelude.{ahead, tables_of};
ghost use Rattle.abel_macros.specs.Gaps as gaps;
ghost use Rattle.abel_macros.specs.Rules as spec;
ghost use Rattle.text_rewriting.specs.declared.rules.Rewriting.TheVariants as rewriting;
ghost use Rattle.text_rewriting.specs.RuleMoves.{rewriting_text, rule_move, IsCallOf, IsNamed, IsRewriting, Fits};

use crate::rules::{Called, Rewriting, Rule};
use abel_macros::{Macro, Tables, read_arguments, read_macro, skip_macro_word};
use std::alloc::{AllocError, Global};
use text_pieces::Ahead;

/// What a call is replaced by: the result that was kept, or the block with the arguments.
#[tactic(auto, using(crate::proofs::Moves::result_kept))]
fn rewriting_of<'t, 'a>(tables: &'t Tables<'a>, called: Called<'t, 'a>) -> Rewriting<'t, 'a>
    requires call { IsCallOf (tables_of tables.now) (rewriting.Called called) }
    requires fits { IsRewriting (rewriting.Called called) }
    ensures text { rewriting_text result ≡ rewriting_text (rewriting.Called called.entry) }
    ensures call { IsCallOf (tables_of tables.now) result }
    ensures fits { IsRewriting result }
{
    match tables.result_of(&called.name, &called.arguments) {
        Some(result) => Rewriting::Plain(result),
        None => Rewriting::Called(called),
    }
}

/// Reads what follows a macro's name.
#[tactic(auto, using(crate::proofs::Moves::plain_called, crate::proofs::Moves::called_same, crate::proofs::Moves::called_other, crate::proofs::Moves::called_broken))]
fn read_call<'t, 'a>(
    alloc: Global,
    at: &mut Ahead<'_, 'a>,
    tables: &'t Tables<'a>,
    name: Vec<u8>,
    entry: &'t Macro<'a>,
) -> Result<Option<Rewriting<'t, 'a>>, AllocError>
    requires { (tables_of tables.now).macros name.items ≡ Some entry.now }
    ensures some { IfOk result (λ o. IfSome o (λ w. spec.called entry.now (ahead at.old) ≡ Some (rewriting_text w, ahead at.new))) }
    ensures none { IfOk result (λ o. IfNone o (spec.called entry.now (ahead at.old) ≡ None)) }
    ensures fits { IfOk result (λ o. IfSome o (λ w. IsRewriting w × IsCallOf (tables_of tables.now) w)) }
    ensures whole { at.new.whole ≡ at.old.whole }
    ensures further { at.old.passed ≤ at.new.passed }
{
    let Some(parameters) = entry.parameters() else {
        return Ok(Some(Rewriting::Plain(entry.block())));
    };
    match read_arguments(alloc, at)? {
        Some(arguments) => {
            if arguments.len() == parameters.len() {
                let called = Called {
                    name,
                    parameters,
                    arguments,
                    block: entry.block(),
                };
                Ok(Some(rewriting_of(tables, called)))
            } else {
                Ok(None)
            }
        }
        None => Ok(None),
    }
}

/// Reads what follows a name and the word MACRO.
fn definition_rule<'t, 'a>(
    alloc: Global,
    at: &mut Ahead<'_, 'a>,
    tables: &'t Tables<'a>,
    name: Vec<u8>,
) -> Result<Rule<'t, 'a>, AllocError>
    ensures moves { IfOk result (λ r. spec.or_bad (spec.definition (tables_of tables.now) at.old.whole name.items (ahead at.old)) ≡ rule_move (tables_of tables.now) at.old.whole (ahead at.new) r) }
    ensures fits { IfOk result (λ r. Fits tables.now r) }
    ensures whole { at.new.whole ≡ at.old.whole }
    ensures further { at.old.passed ≤ at.new.passed }
{
    match read_macro(alloc, at)? {
        Some(entry) => Ok(Rule::Define(name, entry)),
        None => Ok(Rule::BadDirective),
    }
}

/// Reads what follows a name that begins no definition: a call, or nothing that belongs to it.
#[tactic(auto, using(crate::proofs::Moves::named_call, crate::proofs::Moves::named_broken, crate::proofs::Moves::named_word))]
fn called_rule<'t, 'a>(
    alloc: Global,
    at: &mut Ahead<'_, 'a>,
    tables: &'t Tables<'a>,
    name: Vec<u8>,
) -> Result<Rule<'t, 'a>, AllocError>
    requires name { name.items ≡ gaps.before at.old.whole (ahead at.old) }
    requires undefined { spec.macro_word (ahead at.old) ≡ None }
    ensures moves { IfOk result (λ r. IsNamed tables.now at.old at.new r) }
    ensures fits { IfOk result (λ r. Fits tables.now r) }
    ensures whole { at.new.whole ≡ at.old.whole }
    ensures further { at.old.passed ≤ at.new.passed }
{
    match tables.macro_of(&name) {
        Some(entry) => match read_call(alloc, at, tables, name, entry)? {
            Some(rewriting) => Ok(Rule::Rewrite(rewriting)),
            None => Ok(Rule::BadDirective),
        },
        None => Ok(Rule::Copy),
    }
}

/// Reads what follows a name: a definition, if there may be one, a call, or nothing that belongs to
/// it.
#[tactic(auto, using(crate::proofs::Moves::named_definition))]
pub fn named_rule<'t, 'a>(
    alloc: Global,
    at: &mut Ahead<'_, 'a>,
    tables: &'t Tables<'a>,
    name: Vec<u8>,
    may_define: bool,
) -> Result<Rule<'t, 'a>, AllocError>
    requires name { name.items ≡ gaps.before at.old.whole (ahead at.old) }
    requires undefined { may_define ≡ false → spec.macro_word (ahead at.old) ≡ None }
    ensures moves { IfOk result (λ r. IsNamed tables.now at.old at.new r) }
    ensures fits { IfOk result (λ r. Fits tables.now r) }
    ensures whole { at.new.whole ≡ at.old.whole }
    ensures further { at.old.passed ≤ at.new.passed }
{
    if !may_define {
        return called_rule(alloc, at, tables, name);
    }
    let behind = at.fork();
    if skip_macro_word(alloc, at)? {
        let rule = definition_rule(alloc, at, tables, name)?;
        return Ok(rule);
    }
    *at = behind;
    called_rule(alloc, at, tables, name)
}
