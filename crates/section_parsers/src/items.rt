//! The parts of declarations from tokens.

ghost use Rattle.std.specs.Prelude.{◌≡◌, [], ◌∷◌, option_map};
ghost use Rattle.section_parsers.specs.Prelude.{read_optional, Gives, among, read_item, read_names, read_num, read_nums, read_texts, read_istype, read_option};

use abel_grammar::{Halt, Terminal, behind, expect, starts};
use abel_lexer::Token;
use abel_tree::{Item, Span, Word};
use expr_parser::{maybe, name, number, text};
use std::alloc::Global;

/// A name or a range of names, and whether a `!` precedes it.
#[tactic(auto, unfolding(abel_grammar::specs::DeclarationReaders::read_item))]
fn item<'a>(alloc: Global, tokens: &'a [Token]) -> Result<(Item, &'a [Token]), Halt<'a>>
    ensures { Gives (λ x. (x.0, x.1.now)) result (read_item tokens.now) }
{
    let (not, rest) = maybe(tokens, Terminal::Not);
    let negated = not.is_some();
    let (first, rest) = name(alloc, rest)?;
    if starts(rest, &[Terminal::Range]) {
        let (_range, rest) = expect(rest, &[Terminal::Range])?;
        let (last, rest) = name(alloc, rest)?;
        return Ok((
            Item {
                negated,
                first,
                last: Some(last),
            },
            rest,
        ));
    }
    Ok((
        Item {
            negated,
            first,
            last: None,
        },
        rest,
    ))
}

/// Names with a comma between any two.
#[tactic(auto, unfolding(abel_grammar::specs::DeclarationReaders::read_names))]
pub fn names<'a>(alloc: Global, tokens: &'a [Token]) -> Result<(Vec<Item>, &'a [Token]), Halt<'a>>
    ensures { Gives (λ x. (x.0.items, x.1.now)) result (read_names tokens.now) }
{
    let mut list = Vec::new(alloc);
    let mut rest = tokens;
    'list: loop {
        let (next, after) = item(alloc, rest)?;
        list.push(next)?;
        match behind(after, &[Terminal::Comma]) {
            Some(others) => rest = others,
            None => return Ok((list, after)),
        }
    }
}

/// A pin number, or a range of them.
#[tactic(auto, unfolding(abel_grammar::specs::DeclarationReaders::read_num))]
fn num<'a>(tokens: &'a [Token]) -> Result<(Span, &'a [Token]), Halt<'a>>
    ensures { Gives (λ x. (x.0, x.1.now)) result (read_num tokens.now) }
{
    let (first, rest) = number(tokens)?;
    if starts(rest, &[Terminal::Range]) {
        let (_range, rest) = expect(rest, &[Terminal::Range])?;
        let (last, rest) = number(rest)?;
        return Ok((
            Span {
                first,
                last: Some(last),
            },
            rest,
        ));
    }
    Ok((Span { first, last: None }, rest))
}

/// Pin numbers with a comma between any two.
#[tactic(auto, unfolding(abel_grammar::specs::DeclarationReaders::read_nums))]
fn nums<'a>(alloc: Global, tokens: &'a [Token]) -> Result<(Vec<Span>, &'a [Token]), Halt<'a>>
    ensures { Gives (λ x. (x.0.items, x.1.now)) result (read_nums tokens.now) }
{
    let mut list = Vec::new(alloc);
    let mut rest = tokens;
    'list: loop {
        let (next, after) = num(rest)?;
        list.push(next)?;
        match behind(after, &[Terminal::Comma]) {
            Some(others) => rest = others,
            None => return Ok((list, after)),
        }
    }
}

/// Pin numbers, if there are any.
pub fn some_nums<'a>(
    alloc: Global,
    tokens: &'a [Token],
) -> Result<(Option<Vec<Span>>, &'a [Token]), Halt<'a>>
    ensures { Gives (λ x. (option_map (λ v. v.items) x.0, x.1.now)) result
        (read_optional (among (Terminal.Number ∷ [])) read_nums tokens.now) }
{
    if !starts(tokens, &[Terminal::Number]) {
        return Ok((None, tokens));
    }
    let (list, rest) = nums(alloc, tokens)?;
    Ok((Some(list), rest))
}

/// Strings with a comma between any two.
#[tactic(auto, unfolding(abel_grammar::specs::DeclarationReaders::read_texts))]
fn texts<'a>(alloc: Global, tokens: &'a [Token]) -> Result<(Vec<Word>, &'a [Token]), Halt<'a>>
    ensures { Gives (λ x. (x.0.items, x.1.now)) result (read_texts tokens.now) }
{
    let mut list = Vec::new(alloc);
    let mut rest = tokens;
    'list: loop {
        let (next, after) = text(alloc, rest)?;
        list.push(next)?;
        match behind(after, &[Terminal::Comma]) {
            Some(others) => rest = others,
            None => return Ok((list, after)),
        }
    }
}

/// ISTYPE and its strings.
#[tactic(auto, unfolding(abel_grammar::specs::DeclarationReaders::read_istype))]
pub fn istype<'a>(alloc: Global, tokens: &'a [Token]) -> Result<(Vec<Word>, &'a [Token]), Halt<'a>>
    ensures { Gives (λ x. (x.0.items, x.1.now)) result (read_istype tokens.now) }
{
    let (_istype, rest) = expect(tokens, &[Terminal::Istype])?;
    texts(alloc, rest)
}

/// ISTYPE and its strings, if they are there.
pub fn some_istype<'a>(
    alloc: Global,
    tokens: &'a [Token],
) -> Result<(Option<Vec<Word>>, &'a [Token]), Halt<'a>>
    ensures { Gives (λ x. (option_map (λ v. v.items) x.0, x.1.now)) result
        (read_optional (among (Terminal.Istype ∷ [])) read_istype tokens.now) }
{
    if !starts(tokens, &[Terminal::Istype]) {
        return Ok((None, tokens));
    }
    let (list, rest) = istype(alloc, tokens)?;
    Ok((Some(list), rest))
}

/// FLAG or OPTIONS and the strings.
#[tactic(auto, unfolding(abel_grammar::specs::DeclarationReaders::read_option))]
pub fn option<'a>(alloc: Global, tokens: &'a [Token]) -> Result<(Vec<Word>, &'a [Token]), Halt<'a>>
    ensures { Gives (λ x. (x.0.items, x.1.now)) result (read_option tokens.now) }
{
    let (_word, rest) = expect(tokens, &[Terminal::Flag, Terminal::Options])?;
    let (list, rest) = texts(alloc, rest)?;
    let (_end, rest) = maybe(rest, Terminal::Semicolon);
    Ok((list, rest))
}
