//! What a turn does to the front of the rest.

ghost use Rattle.std.specs.Prelude.{◌≡◌, [], ◌∷◌, ◌<◌, ◌≤◌, false, length, drop, IfOk};
ghost use Rattle.text_rewriting.specs.Prelude.{tables_of};
ghost use Rattle.abel_macros.specs.Rules as spec;
ghost use Rattle.text_rewriting.specs.RuleMoves.{rewriting_text, rule_move, IsCallOf, IsRewriting, IsRule, IsRuleOf};
ghost use Rattle.text_rewriting.specs.Marks.{DefinesNone};
ghost use Rattle.text_rewriting.specs.Fronts.{IsFront, IsRewritten};

use crate::gather::gather;
use crate::gathered::{Gathered, Shortage};
use crate::rules::{Rewriting, Rule, first_rule};
use crate::spoken::{line_feeds, shown};
use crate::unread::Unread;
use abel_macros::{Call, Macro, Tables};
use pld_base::OutOfMemory;
use std::alloc::{AllocError, Global};
use text_pieces::Rest;

/// What a turn defines.
#[derive(Drop)]
pub enum Change<'a> {
    /// Nothing.
    Nothing,
    /// A macro.
    Define(Vec<u8>, Macro<'a>),
    /// The value of a name.
    Keep(Vec<u8>, u32),
    /// The radix in force.
    Radix(u32),
}

/// What a turn does.
#[derive(Drop)]
pub enum Front<'a> {
    /// So many bytes are done.
    Copy(usize),
    /// Something is defined, and these bytes are done for so many of the rest.
    Said(Change<'a>, Vec<u8>, usize),
    /// This result is put in place of so many bytes; it may be that of a call.
    Rewritten(Gathered<'a>, usize, Option<Call<'a>>),
    /// A result that is too long.
    TooLong,
    /// A form that is broken.
    BadDirective,
    /// A directive that the project leaves out.
    Unsupported,
}

/// A space.
fn space(alloc: Global) -> Result<Vec<u8>, AllocError>
    ensures { IfOk result (λ w. w.items ≡ 32 ∷ []) }
{
    let mut bytes = Vec::new(alloc);
    bytes.push(b' ')?;
    Ok(bytes)
}

/// The result of a rewriting in place of so many bytes, if it has at most as many bytes as there is room.
fn rewritten<'a>(
    alloc: Global,
    rewriting: Rewriting<'_, 'a>,
    room: usize,
    end: usize,
) -> Result<Front<'a>, OutOfMemory>
    requires { IsRewriting rewriting }
    ensures { IfOk result (λ f. (t : spec.Tables) → IsCallOf t rewriting.entry → IsRewritten t (rewriting_text rewriting.entry) room end f) }
{
    match gather(alloc, rewriting, room) {
        Ok((result, call)) => {
            result.is_within();
            Ok(Front::Rewritten(result, end, call))
        }
        Err(Shortage::TooLong) => Ok(Front::TooLong),
        Err(Shortage::OutOfMemory) => Err(OutOfMemory),
    }
}

/// What a rule does to a rest that may have so many bytes.
#[tactic(auto, using(crate::proofs::Fronts::rewritten_front, crate::proofs::Fronts::said_front, crate::proofs::Fronts::copy_front))]
fn front_of<'a>(
    alloc: Global,
    rest: &Rest<'a>,
    rule: Rule<'_, 'a>,
    end: usize,
    most: usize,
) -> Result<Front<'a>, OutOfMemory>
    requires rule { IsRule rule }
    requires some { 0 < end }
    requires within { end ≤ length rest.now }
    requires room { length rest.now ≤ most }
    ensures { IfOk result (λ f. (t : spec.Tables) → IsRuleOf t rule.entry → IsFront t rest.now most (rule_move t rest.now (drop end rest.now) rule.entry) f) }
{
    match rule {
        Rule::Comment => Ok(Front::Said(Change::Nothing, space(alloc)?, end)),
        Rule::Copy => Ok(Front::Copy(end)),
        Rule::Define(name, entry) => {
            let bytes = line_feeds(alloc, rest, end)?;
            Ok(Front::Said(Change::Define(name, entry), bytes, end))
        }
        Rule::Keep(name, value) => {
            let bytes = line_feeds(alloc, rest, end)?;
            Ok(Front::Said(Change::Keep(name, value), bytes, end))
        }
        Rule::Radix(radix) => {
            let bytes = shown(alloc, rest, end)?;
            Ok(Front::Said(Change::Radix(radix), bytes, end))
        }
        Rule::Rewrite(rewriting) => { rewritten(alloc, rewriting, most - (rest.len() - end), end) }
        Rule::BadDirective => Ok(Front::BadDirective),
        Rule::Unsupported => Ok(Front::Unsupported),
    }
}

/// What a turn does to the front of a rest, which may then have so many bytes; whether a definition may
/// begin there is known.
pub fn look<'a>(
    alloc: Global,
    rest: &Unread<'a>,
    tables: &Tables<'a>,
    may_define: bool,
    most: usize,
) -> Result<Front<'a>, OutOfMemory>
    requires some { 0 < length rest.now }
    requires undefined { may_define ≡ false → DefinesNone rest.now }
    requires room { length rest.now ≤ most }
    ensures { IfOk result (λ f. IsFront (tables_of tables.now) rest.now most (spec.move (tables_of tables.now) rest.now) f) }
{
    let (rule, end) = first_rule(alloc, rest.rest(), tables, may_define)?;
    front_of(alloc, rest.rest(), rule, end, most)
}
