//! The first rule that fits the front of the rest, and what it takes.

ghost use Rattle.std.specs.Prelude.{◌≡◌, ◌<◌, ◌≤◌, length, drop, true, false, IfOk};
ghost use Rattle.text_rewriting.specs.Prelude.{ahead, tables_of};
ghost use Rattle.abel_macros.specs.Gaps as gaps;
ghost use Rattle.abel_macros.specs.Rules as spec;
ghost use Rattle.text_rewriting.specs.Marks.{DefinesNone};
ghost use Rattle.text_rewriting.specs.RuleMoves.{rule_move, Fits, plain_move};

use crate::called::named_rule;
use crate::directives::directed_rule;
use abel_macros::{
    Directive, Each, Macro, Tables, is_next, later_len, read, read_word, skip_comment, string_len,
    token_len,
};
use std::alloc::{AllocError, Global};
use text_pieces::{Ahead, Piece, Rest};

/// A call of a macro with parameters.
#[derive(Drop)]
pub struct Called<'t, 'a> {
    pub name: Vec<u8>,
    pub parameters: &'t [Vec<u8>],
    pub arguments: Vec<Vec<Piece<'a>>>,
    pub block: &'t [Piece<'a>],
}

/// What the result of a rewriting is made of.
#[derive(Drop)]
pub enum Rewriting<'t, 'a> {
    /// Nothing.
    Nothing,
    /// A block.
    Block(Vec<Piece<'a>>),
    /// A block so many times.
    Repeated(u32, Vec<Piece<'a>>),
    /// A block once for each argument.
    Each(Each<'a>),
    /// A block, and a value's digits in a radix.
    Valued(Vec<Piece<'a>>, u32, u32),
    /// A text that is there: the block of a macro without parameters, or the result of a call that was kept.
    Plain(&'t [Piece<'a>]),
    /// The block of a macro with its arguments.
    Called(Called<'t, 'a>),
}

/// The first rule that fits.
#[derive(Drop)]
pub enum Rule<'t, 'a> {
    /// A comment, which is one space.
    Comment,
    /// What is done unchanged.
    Copy,
    /// A macro's definition.
    Define(Vec<u8>, Macro<'a>),
    /// The value of a name.
    Keep(Vec<u8>, u32),
    /// A radix.
    Radix(u32),
    /// A form that is rewritten.
    Rewrite(Rewriting<'t, 'a>),
    /// A form that is broken.
    BadDirective,
    /// A directive that the project leaves out.
    Unsupported,
}

/// Reads the word of a directive.
#[tactic(auto, using(crate::proofs::Moves::directive_word, crate::proofs::Moves::directive_behind, crate::proofs::Moves::directive_within))]
fn read_directive_word(alloc: Global, at: &mut Ahead) -> Result<Vec<u8>, AllocError>
    requires { gaps.starts_byte 64 (ahead at.old) ≡ true }
    ensures word { IfOk result (λ w. w.items ≡ gaps.before (ahead at.old) (spec.behind_directive (ahead at.old))) }
    ensures ahead { IfOk result (λ w. ahead at.new ≡ spec.behind_directive (ahead at.old)) }
    ensures whole { at.new.whole ≡ at.old.whole }
    ensures some { IfOk result (λ w. at.old.passed < at.new.passed) }
{
    let mut look = at.fork();
    let _mark = look.step();
    let count = later_len(&look);
    read(alloc, at, 1 + count)
}

/// Reads a directive at the front, and what belongs to it; how many bytes that are is beside it.
fn directive_rule<'t, 'a>(
    alloc: Global,
    rest: &Rest<'a>,
    tables: &'t Tables<'a>,
) -> Result<(Rule<'t, 'a>, usize), AllocError>
    requires { gaps.starts_byte 64 rest.now ≡ true }
    ensures moves { IfOk result (λ r. spec.directed (spec.directive_of (gaps.before rest.now (spec.behind_directive rest.now))) (tables_of tables.now) rest.now (spec.behind_directive rest.now) ≡ rule_move (tables_of tables.now) rest.now (drop r.1 rest.now) r.0) }
    ensures fits { IfOk result (λ r. Fits tables.now r.0) }
    ensures within { IfOk result (λ r. (0 < r.1) × (r.1 ≤ length rest.now)) }
{
    let mut at = rest.ahead();
    let word = read_directive_word(alloc, &mut at)?;
    let rule = directed_rule(alloc, &mut at, tables, Directive::of(&word))?;
    Ok((rule, at.passed()))
}

/// Reads a name or another token at the front, and what belongs to it.
#[tactic(auto, using(crate::proofs::Moves::word_moves, crate::proofs::Moves::token_moves))]
fn plain_rule<'t, 'a>(
    alloc: Global,
    rest: &Rest<'a>,
    tables: &'t Tables<'a>,
    may_define: bool,
) -> Result<(Rule<'t, 'a>, usize), AllocError>
    requires some { 0 < length rest.now }
    requires undefined { may_define ≡ false → DefinesNone rest.now }
    requires plain { (gaps.starts_byte 39 rest.now ≡ false) × (gaps.starts_byte 64 rest.now ≡ false) }
    ensures moves { IfOk result (λ r. plain_move (tables_of tables.now) rest.now ≡ rule_move (tables_of tables.now) rest.now (drop r.1 rest.now) r.0) }
    ensures fits { IfOk result (λ r. Fits tables.now r.0) }
    ensures within { IfOk result (λ r. (0 < r.1) × (r.1 ≤ length rest.now)) }
{
    let mut at = rest.ahead();
    match read_word(alloc, &mut at)? {
        Some(name) => {
            let rule = named_rule(alloc, &mut at, tables, name, may_define)?;
            Ok((rule, at.passed()))
        }
        None => Ok((Rule::Copy, token_len(&rest.ahead()))),
    }
}

/// The first rule that fits the front of a rest, and how many bytes it takes; whether a definition may
/// begin there is known.
#[tactic(auto, using(crate::proofs::Moves::comment_moves, crate::proofs::Moves::string_moves, crate::proofs::Moves::directive_moves, crate::proofs::Moves::plain_moves, crate::proofs::Moves::string_some))]
pub fn first_rule<'t, 'a>(
    alloc: Global,
    rest: &Rest<'a>,
    tables: &'t Tables<'a>,
    may_define: bool,
) -> Result<(Rule<'t, 'a>, usize), AllocError>
    requires some { 0 < length rest.now }
    requires undefined { may_define ≡ false → DefinesNone rest.now }
    ensures moves { IfOk result (λ r. spec.move (tables_of tables.now) rest.now ≡ rule_move (tables_of tables.now) rest.now (drop r.1 rest.now) r.0) }
    ensures fits { IfOk result (λ r. Fits tables.now r.0) }
    ensures within { IfOk result (λ r. (0 < r.1) × (r.1 ≤ length rest.now)) }
{
    let mut at = rest.ahead();
    if skip_comment(&mut at) {
        return Ok((Rule::Comment, at.passed()));
    }
    let front = rest.ahead();
    if is_next(&front, b'\'') {
        return Ok((Rule::Copy, string_len(&front)));
    }
    if is_next(&front, b'@') {
        return directive_rule(alloc, rest, tables);
    }
    plain_rule(alloc, rest, tables, may_define)
}
