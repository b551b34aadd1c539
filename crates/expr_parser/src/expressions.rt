//! Expressions from tokens.

ghost use Rattle.std.specs.Prelude.{◌≡◌, ℕ, map, [], ◌∷◌};
ghost use Rattle.abel_tree.specs.View.{view, view_member};
ghost use Rattle.abel_grammar.specs.Gives.{Gives};
ghost use Rattle.abel_grammar.specs.Expressions.{products, sums, relations};
ghost use Rattle.abel_grammar.specs.WordReaders.{read_apart_by};
ghost use Rattle.abel_grammar.specs.ExpressionReaders.{read_link, read_level, read_paren, read_member, read_set, read_negated, read_operand, read_expr, read_set_at};

use crate::lists::packed;
use crate::operands::{at_range, simple, span_member};
use crate::operators::{binary_of, join, unary_of};
use crate::signs::{
    begins_product, begins_relation, begins_sum, product_sign, relation_sign, sum_sign,
};
use crate::words::{extension_in, maybe};
use abel_grammar::{Halt, Terminal, behind, expect, starts, terminal_of};
use abel_lexer::Token;
use abel_tree::{Expr, Member};
use pld_base::Boxed;
use std::alloc::Global;

/// Signs and the operand after them.
#[cycle(expr)]
#[tactic(auto, unfolding(abel_grammar::specs::ExpressionReaders::read_negated))]
fn negated<'a>(
    alloc: Global,
    tokens: &'a [Token],
    depth: u8,
) -> Result<(Expr, &'a [Token]), Halt<'a>>
    ensures { Gives (λ x. (view x.0, x.1.now)) result
        (read_negated (read_operand depth) tokens.now) }
{
    let (token, rest) = expect(tokens, &[Terminal::Not, Terminal::Minus])?;
    let sign = unary_of(terminal_of(token));
    let place = token.place;
    let (inner, rest) = operand(alloc, rest, depth)?;
    let inner = Boxed::new(alloc, inner)?;
    Ok((Expr::Unary { sign, place, inner }, rest))
}

/// An expression in parentheses.
#[cycle(expr)]
#[tactic(auto, unfolding(abel_grammar::specs::ExpressionReaders::read_paren))]
fn paren<'a>(alloc: Global, tokens: &'a [Token], depth: u8) -> Result<(Expr, &'a [Token]), Halt<'a>>
    ensures { Gives (λ x. (view x.0, x.1.now)) result (read_paren (read_expr depth) tokens.now) }
{
    let (token, rest) = expect(tokens, &[Terminal::Open])?;
    let place = token.place;
    let (inner, rest) = expr(alloc, rest, depth)?;
    let (_close, rest) = expect(rest, &[Terminal::Close])?;
    let inner = Boxed::new(alloc, inner)?;
    Ok((Expr::Paren { place, inner }, rest))
}

/// A member of a set.
#[cycle(expr)]
#[tactic(auto, unfolding(abel_grammar::specs::ExpressionReaders::read_member))]
fn member<'a>(
    alloc: Global,
    tokens: &'a [Token],
    depth: u8,
) -> Result<(Member, &'a [Token]), Halt<'a>>
    ensures { Gives (λ x. (view_member x.0, x.1.now)) result
        (read_member (read_expr depth) tokens.now) }
{
    if at_range(tokens) {
        return span_member(alloc, tokens);
    }
    let (member, rest) = expr(alloc, tokens, depth)?;
    Ok((Member::One(member), rest))
}

/// Members with a comma between any two.
#[cycle(expr)]
fn members<'a>(
    alloc: Global,
    tokens: &'a [Token],
    depth: u8,
) -> Result<(Vec<Member>, &'a [Token]), Halt<'a>>
    ensures { Gives (λ x. (map view_member x.0.items, x.1.now)) result
        (read_apart_by Terminal.Comma (read_member (read_expr depth)) tokens.now) }
{
    let mut list = Vec::new(alloc);
    let mut rest = tokens;
    'list: loop {
        let (next, after) = member(alloc, rest, depth)?;
        list.push(next)?;
        match behind(after, &[Terminal::Comma]) {
            Some(others) => rest = others,
            None => return Ok((list, after)),
        }
    }
}

/// A set in brackets, and its extension.
#[cycle(expr)]
#[tactic(auto, unfolding(abel_grammar::specs::ExpressionReaders::read_set))]
fn set<'a>(alloc: Global, tokens: &'a [Token], depth: u8) -> Result<(Expr, &'a [Token]), Halt<'a>>
    ensures { Gives (λ x. (view x.0, x.1.now)) result (read_set (read_expr depth) tokens.now) }
{
    let (token, rest) = expect(tokens, &[Terminal::Left])?;
    let place = token.place;
    let (members, rest) = members(alloc, rest, depth)?;
    let (_right, rest) = expect(rest, &[Terminal::Right])?;
    let (suffix, rest) = maybe(rest, Terminal::Extension);
    let extension = extension_in(suffix);
    Ok((
        Expr::Set {
            place,
            members: packed(members),
            extension,
        },
        rest,
    ))
}

/// What opens no nesting, if none may be opened.
#[tactic(auto, unfolding(abel_grammar::specs::ExpressionReaders::read_operand))]
fn flat<'a>(alloc: Global, tokens: &'a [Token]) -> Result<(Expr, &'a [Token]), Halt<'a>>
    ensures { Gives (λ x. (view x.0, x.1.now)) result (read_operand 0 tokens.now) }
{
    if starts(tokens, &[Terminal::Not, Terminal::Minus]) {
        Err(Halt::TooDeep(tokens))
    } else if starts(tokens, &[Terminal::Open]) {
        Err(Halt::TooDeep(tokens))
    } else if starts(tokens, &[Terminal::Left]) {
        Err(Halt::TooDeep(tokens))
    } else {
        simple(alloc, tokens)
    }
}

/// A sign and its operand, something in parentheses or brackets, or what needs no nesting.
#[cycle(expr)]
#[tactic(auto, unfolding(abel_grammar::specs::ExpressionReaders::read_operand))]
fn operand<'a>(
    alloc: Global,
    tokens: &'a [Token],
    depth: u8,
) -> Result<(Expr, &'a [Token]), Halt<'a>>
    ensures { Gives (λ x. (view x.0, x.1.now)) result (read_operand depth tokens.now) }
{
    if depth == 0 {
        return flat(alloc, tokens);
    }
    if starts(tokens, &[Terminal::Not, Terminal::Minus]) {
        negated(alloc, tokens, depth - 1)
    } else if starts(tokens, &[Terminal::Open]) {
        paren(alloc, tokens, depth - 1)
    } else if starts(tokens, &[Terminal::Left]) {
        set(alloc, tokens, depth - 1)
    } else {
        simple(alloc, tokens)
    }
}

/// A sign and the operand after it.
#[cycle(expr)]
fn product_link<'a>(
    alloc: Global,
    tokens: &'a [Token],
    depth: u8,
) -> Result<((&'a Token, Expr), &'a [Token]), Halt<'a>>
    ensures { Gives (λ x. ((x.0.0.now, view x.0.1), x.1.now)) result
        (read_link products (read_operand depth) tokens.now) }
{
    let (sign, rest) = product_sign(tokens)?;
    let (right, rest) = operand(alloc, rest, depth)?;
    Ok(((sign, right), rest))
}

/// Operands joined from the left.
#[cycle(expr)]
fn product<'a>(
    alloc: Global,
    tokens: &'a [Token],
    depth: u8,
) -> Result<(Expr, &'a [Token]), Halt<'a>>
    ensures { Gives (λ x. (view x.0, x.1.now)) result
        (read_level products (read_operand depth) tokens.now) }
{
    let (first, after) = operand(alloc, tokens, depth)?;
    let mut left = first;
    let mut rest = after;
    'links: while begins_product(rest) {
        let ((sign, right), after) = product_link(alloc, rest, depth)?;
        left = join(alloc, binary_of(terminal_of(sign)), sign.place, left, right)?;
        rest = after;
    }
    Ok((left, rest))
}

/// A sign and the operand after it.
#[cycle(expr)]
fn sum_link<'a>(
    alloc: Global,
    tokens: &'a [Token],
    depth: u8,
) -> Result<((&'a Token, Expr), &'a [Token]), Halt<'a>>
    ensures { Gives (λ x. ((x.0.0.now, view x.0.1), x.1.now)) result
        (read_link sums (read_level products (read_operand depth)) tokens.now) }
{
    let (sign, rest) = sum_sign(tokens)?;
    let (right, rest) = product(alloc, rest, depth)?;
    Ok(((sign, right), rest))
}

/// Operands joined from the left.
#[cycle(expr)]
fn sum<'a>(alloc: Global, tokens: &'a [Token], depth: u8) -> Result<(Expr, &'a [Token]), Halt<'a>>
    ensures { Gives (λ x. (view x.0, x.1.now)) result
        (read_level sums (read_level products (read_operand depth)) tokens.now) }
{
    let (first, after) = product(alloc, tokens, depth)?;
    let mut left = first;
    let mut rest = after;
    'links: while begins_sum(rest) {
        let ((sign, right), after) = sum_link(alloc, rest, depth)?;
        left = join(alloc, binary_of(terminal_of(sign)), sign.place, left, right)?;
        rest = after;
    }
    Ok((left, rest))
}

/// A sign and the operand after it.
#[cycle(expr)]
fn relation_link<'a>(
    alloc: Global,
    tokens: &'a [Token],
    depth: u8,
) -> Result<((&'a Token, Expr), &'a [Token]), Halt<'a>>
    ensures { Gives (λ x. ((x.0.0.now, view x.0.1), x.1.now)) result
        (read_link relations (read_level sums (read_level products (read_operand depth))) tokens.now) }
{
    let (sign, rest) = relation_sign(tokens)?;
    let (right, rest) = sum(alloc, rest, depth)?;
    Ok(((sign, right), rest))
}

/// Operands joined from the left.
#[cycle(expr)]
#[tactic(auto, unfolding(abel_grammar::specs::ExpressionReaders::read_expr_over))]
pub fn expr<'a>(
    alloc: Global,
    tokens: &'a [Token],
    depth: u8,
) -> Result<(Expr, &'a [Token]), Halt<'a>>
    ensures { Gives (λ x. (view x.0, x.1.now)) result (read_expr depth tokens.now) }
{
    let (first, after) = sum(alloc, tokens, depth)?;
    let mut left = first;
    let mut rest = after;
    'links: while begins_relation(rest) {
        let ((sign, right), after) = relation_link(alloc, rest, depth)?;
        left = join(alloc, binary_of(terminal_of(sign)), sign.place, left, right)?;
        rest = after;
    }
    Ok((left, rest))
}

/// A set that is alone.
#[tactic(auto, unfolding(abel_grammar::specs::ExpressionReaders::read_set_at))]
pub fn set_at<'a>(
    alloc: Global,
    tokens: &'a [Token],
    depth: u8,
) -> Result<(Expr, &'a [Token]), Halt<'a>>
    ensures { Gives (λ x. (view x.0, x.1.now)) result (read_set_at depth tokens.now) }
{
    if depth == 0 {
        return if starts(tokens, &[Terminal::Left]) {
            Err(Halt::TooDeep(tokens))
        } else {
            Err(Halt::Syntax(tokens))
        };
    }
    set(alloc, tokens, depth - 1)
}
