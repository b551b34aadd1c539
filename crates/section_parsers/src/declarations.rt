//! Declarations from tokens: the names first, and then what they are declared as.

ghost use Rattle.std.specs.Prelude.{◌≡◌, ℕ, List, length, map, [], ◌∷◌, option_map, unwrap_or, IfOk};
ghost use Rattle.section_parsers.specs.Prelude.{read_made, ◌then_read◌, read_repeated, read_times, view, view_decl, Gives, among, read_one, read_expr, read_kept, read_istype, bare_item, only_name, bare_names, read_device, read_values_for, read_constants, read_declared, read_naming, read_option_decl, read_dont_care_decl, read_decl, read_other_decl, decl_starts};
ghost use Rattle.std.specs.Option.{option_copied};
ghost use Rattle.abel_grammar.specs.Declarations.{pins_of, nodes_of, attributes_of, value_of};

use crate::items::{istype, names, option, some_istype, some_nums};
use abel_grammar::{Halt, Terminal, expect, starts};
use abel_lexer::Token;
use abel_tree::{Decl, Expr, Item, Span, Word};
use expr_parser::{dont_care, expr, packed, text};
use pld_base::{ListOf, OutOfMemory};
use std::alloc::Global;

const NAMING_STARTS: [Terminal; 2] = [Terminal::Not, Terminal::Identifier];

const OPTION_WORDS: [Terminal; 2] = [Terminal::Flag, Terminal::Options];

const DECL_STARTS: [Terminal; 5] = [
    Terminal::Not,
    Terminal::Identifier,
    Terminal::Flag,
    Terminal::Options,
    Terminal::DontCare,
];

/// The name of an item that is neither negated nor a range.
fn bare_name(item: &Item) -> Option<&Word>
    ensures { option_copied result ≡ bare_item item.now }
{
    if item.negated {
        return None;
    }
    match &item.last {
        None => Some(&item.first),
        Some(_) => None,
    }
}

/// The name, if there is one alone.
fn only_name(names: &[Item]) -> Option<&Word>
    ensures { option_copied result ≡ only_name names.now }
{
    match names {
        [] => None,
        [first, others @ ..] => {
            if others.is_empty() {
                bare_name(first)
            } else {
                None
            }
        }
    }
}

/// The names, if none is negated or a range.
fn bare_names(alloc: Global, names: &[Item]) -> Result<Option<Vec<Word>>, OutOfMemory>
    ensures { IfOk result (λ o. option_map (λ v. v.items) o ≡ bare_names names.now) }
{
    let mut list = Vec::new(alloc);
    'names: for item in names {
        match bare_name(item) {
            None => return Ok(None),
            Some(word) => list.push(word.copy(alloc)?)?,
        }
    }
    Ok(Some(list))
}

/// DEVICE and its string, after a name that is alone.
fn device<'a>(
    alloc: Global,
    name: Option<&Word>,
    tokens: &'a [Token],
) -> Result<(Decl, &'a [Token]), Halt<'a>>
    ensures { Gives (λ x. (view_decl x.0, x.1.now)) result
        (read_device (option_copied name.entry) tokens.now) }
{
    let Some(name) = name else {
        return Err(Halt::Syntax(tokens));
    };
    let (_device, rest) = expect(tokens, &[Terminal::Device])?;
    let (string, rest) = text(alloc, rest)?;
    let (_end, rest) = expect(rest, &[Terminal::Semicolon])?;
    let name = name.copy(alloc)?;
    Ok((Decl::Device { name, text: string }, rest))
}

/// PIN or NODE, its numbers and its attributes.
#[tactic(auto, unfolding(abel_grammar::specs::DeclarationReaders::read_kept))]
fn kept<'a>(
    alloc: Global,
    word: Terminal,
    tokens: &'a [Token],
) -> Result<
    (
        (
            &'a Token,
            (Option<Vec<Span>>, (Option<Vec<Word>>, &'a Token)),
        ),
        &'a [Token],
    ),
    Halt<'a>,
>
    ensures { Gives (λ x. (
      (
        x.0.0.now,
        (
          option_map (λ v. v.items) x.0.1.0,
          (option_map (λ v. v.items) x.0.1.1.0, x.0.1.1.1.now),
        ),
      ),
      x.1.now,
    )) result
        (read_kept word tokens.now) }
{
    let (first, rest) = expect(tokens, &[word])?;
    let (numbers, rest) = some_nums(alloc, rest)?;
    let (attributes, rest) = some_istype(alloc, rest)?;
    let (end, rest) = expect(rest, &[Terminal::Semicolon])?;
    Ok(((first, (numbers, (attributes, end))), rest))
}

/// A list that may be missing.
fn list_or_none<T: Drop>(alloc: Global, list: Option<Vec<T>>) -> ListOf<T>
    ensures { result ≡ unwrap_or (option_map (λ v. v.items) list) [] }
{
    match list {
        None => ListOf::from_vec(Vec::new(alloc)),
        Some(list) => ListOf::from_vec(list),
    }
}

/// PIN, after its names.
fn pins<'a>(
    alloc: Global,
    names: Vec<Item>,
    tokens: &'a [Token],
) -> Result<(Decl, &'a [Token]), Halt<'a>>
    ensures { Gives (λ x. (view_decl x.0, x.1.now)) result
        (read_made (λ x. pins_of (names.items, x)) (read_kept Terminal.Pin) tokens.now) }
{
    let ((_pin, (numbers, (attributes, _end))), rest) = kept(alloc, Terminal::Pin, tokens)?;
    Ok((
        Decl::Pins {
            names: ListOf::from_vec(names),
            numbers: list_or_none(alloc, numbers),
            attributes: list_or_none(alloc, attributes),
        },
        rest,
    ))
}

/// NODE, after its names.
fn nodes<'a>(
    alloc: Global,
    names: Vec<Item>,
    tokens: &'a [Token],
) -> Result<(Decl, &'a [Token]), Halt<'a>>
    ensures { Gives (λ x. (view_decl x.0, x.1.now)) result
        (read_made (λ x. nodes_of (names.items, x)) (read_kept Terminal.Node) tokens.now) }
{
    let ((_node, (numbers, (attributes, _end))), rest) = kept(alloc, Terminal::Node, tokens)?;
    Ok((
        Decl::Nodes {
            names: ListOf::from_vec(names),
            numbers: list_or_none(alloc, numbers),
            attributes: list_or_none(alloc, attributes),
        },
        rest,
    ))
}

/// ISTYPE, after its names.
fn attributes<'a>(
    alloc: Global,
    names: Vec<Item>,
    tokens: &'a [Token],
) -> Result<(Decl, &'a [Token]), Halt<'a>>
    ensures { Gives (λ x. (view_decl x.0, x.1.now)) result
        (read_made (λ x. attributes_of (names.items, x))
        (read_istype then_read read_one Terminal.Semicolon) tokens.now) }
{
    let (list, rest) = istype(alloc, tokens)?;
    let (_end, rest) = expect(rest, &[Terminal::Semicolon])?;
    Ok((
        Decl::Attributes {
            names: ListOf::from_vec(names),
            attributes: ListOf::from_vec(list),
        },
        rest,
    ))
}

/// A comma and an expression.
fn value<'a>(alloc: Global, tokens: &'a [Token], depth: u8) -> Result<(Expr, &'a [Token]), Halt<'a>>
    ensures { Gives (λ x. (view x.0, x.1.now)) result
        (read_made value_of (read_one Terminal.Comma then_read read_expr depth) tokens.now) }
{
    let (_comma, rest) = expect(tokens, &[Terminal::Comma])?;
    expr(alloc, rest, depth)
}

/// So many commas, each with an expression.
fn values<'a>(
    alloc: Global,
    count: usize,
    tokens: &'a [Token],
    depth: u8,
) -> Result<(Vec<Expr>, &'a [Token]), Halt<'a>>
    ensures { Gives (λ x. (map view x.0.items, x.1.now)) result
        (read_times count (read_made value_of (read_one Terminal.Comma then_read read_expr depth))
        tokens.now) }
{
    let mut list = Vec::new(alloc);
    let mut rest = tokens;
    let mut left = count;
    'list: while left > 0 {
        let (next, after) = value(alloc, rest, depth)?;
        list.push(next)?;
        rest = after;
        left -= 1;
    }
    Ok((list, rest))
}

/// As many expressions as names, with a comma between any two.
fn values_for<'a>(
    alloc: Global,
    names: &[Word],
    tokens: &'a [Token],
    depth: u8,
) -> Result<(Vec<Expr>, &'a [Token]), Halt<'a>>
    ensures { Gives (λ x. (map view x.0.items, x.1.now)) result
        (read_values_for names.now (read_expr depth) tokens.now) }
{
    match names {
        [] => Err(Halt::Syntax(tokens)),
        [_first, others @ ..] => {
            let (first, rest) = expr(alloc, tokens, depth)?;
            let (mut list, rest) = values(alloc, others.len(), rest, depth)?;
            list.insert(0, first)?;
            Ok((list, rest))
        }
    }
}

/// `=` and the values of constants, after names that are neither negated nor ranges.
fn constants<'a>(
    alloc: Global,
    names: Option<Vec<Word>>,
    tokens: &'a [Token],
    depth: u8,
) -> Result<(Decl, &'a [Token]), Halt<'a>>
    ensures { Gives (λ x. (view_decl x.0, x.1.now)) result
        (read_constants (option_map (λ v. v.items) names) (read_expr depth) tokens.now) }
{
    let Some(names) = names else {
        return Err(Halt::Syntax(tokens));
    };
    let (_equal, rest) = expect(tokens, &[Terminal::Equal])?;
    let (values, rest) = values_for(alloc, names.as_slice(), rest, depth)?;
    let (_end, rest) = expect(rest, &[Terminal::Semicolon])?;
    Ok((
        Decl::Constants {
            names: packed(names),
            values: packed(values),
        },
        rest,
    ))
}

/// What names are declared as.
#[tactic(auto, unfolding(abel_grammar::specs::DeclarationReaders::read_declared))]
fn declared<'a>(
    alloc: Global,
    names: Vec<Item>,
    tokens: &'a [Token],
    depth: u8,
) -> Result<(Decl, &'a [Token]), Halt<'a>>
    ensures { Gives (λ x. (view_decl x.0, x.1.now)) result
        (read_declared depth names.items tokens.now) }
{
    if starts(tokens, &[Terminal::Device]) {
        device(alloc, only_name(names.as_slice()), tokens)
    } else if starts(tokens, &[Terminal::Pin]) {
        pins(alloc, names, tokens)
    } else if starts(tokens, &[Terminal::Node]) {
        nodes(alloc, names, tokens)
    } else if starts(tokens, &[Terminal::Istype]) {
        attributes(alloc, names, tokens)
    } else {
        let words = bare_names(alloc, names.as_slice())?;
        constants(alloc, words, tokens, depth)
    }
}

/// Names, and what they are declared as.
#[tactic(auto, unfolding(abel_grammar::specs::DeclarationReaders::read_naming))]
fn naming<'a>(
    alloc: Global,
    tokens: &'a [Token],
    depth: u8,
) -> Result<(Decl, &'a [Token]), Halt<'a>>
    ensures { Gives (λ x. (view_decl x.0, x.1.now)) result (read_naming depth tokens.now) }
{
    let (names, rest) = names(alloc, tokens)?;
    declared(alloc, names, rest, depth)
}

/// An option among declarations.
#[tactic(auto, unfolding(abel_grammar::specs::DeclarationReaders::read_option_decl))]
fn option_decl<'a>(alloc: Global, tokens: &'a [Token]) -> Result<(Decl, &'a [Token]), Halt<'a>>
    ensures { Gives (λ x. (view_decl x.0, x.1.now)) result (read_option_decl tokens.now) }
{
    let (words, rest) = option(alloc, tokens)?;
    Ok((Decl::Options(ListOf::from_vec(words)), rest))
}

/// `@DCSET` or `@ONSET` among declarations.
#[tactic(auto, unfolding(abel_grammar::specs::DeclarationReaders::read_dont_care_decl))]
fn dont_care_decl<'a>(tokens: &'a [Token]) -> Result<(Decl, &'a [Token]), Halt<'a>>
    ensures { Gives (λ x. (view_decl x.0, x.1.now)) result (read_dont_care_decl tokens.now) }
{
    let (dc, rest) = dont_care(tokens)?;
    Ok((Decl::DontCare(dc), rest))
}

/// A declaration.
#[tactic(auto, unfolding(abel_grammar::specs::DeclarationReaders::read_decl))]
fn decl<'a>(alloc: Global, tokens: &'a [Token], depth: u8) -> Result<(Decl, &'a [Token]), Halt<'a>>
    ensures { Gives (λ x. (view_decl x.0, x.1.now)) result (read_decl depth tokens.now) }
{
    if starts(tokens, &NAMING_STARTS) {
        naming(alloc, tokens, depth)
    } else if starts(tokens, &OPTION_WORDS) {
        option_decl(alloc, tokens)
    } else {
        dont_care_decl(tokens)
    }
}

/// A declaration that is no option.
#[tactic(auto, unfolding(abel_grammar::specs::DeclarationReaders::read_other_decl))]
pub fn other_decl<'a>(
    alloc: Global,
    tokens: &'a [Token],
    depth: u8,
) -> Result<(Decl, &'a [Token]), Halt<'a>>
    ensures { Gives (λ x. (view_decl x.0, x.1.now)) result (read_other_decl depth tokens.now) }
{
    if starts(tokens, &NAMING_STARTS) {
        naming(alloc, tokens, depth)
    } else {
        dont_care_decl(tokens)
    }
}

/// As many declarations as are there.
pub fn decls<'a>(
    alloc: Global,
    tokens: &'a [Token],
    depth: u8,
) -> Result<(Vec<Decl>, &'a [Token]), Halt<'a>>
    ensures { Gives (λ x. (map view_decl x.0.items, x.1.now)) result
        (read_repeated (among decl_starts) (read_decl depth) tokens.now) }
{
    let mut list = Vec::new(alloc);
    let mut rest = tokens;
    'list: while starts(rest, &DECL_STARTS) {
        let (next, after) = decl(alloc, rest, depth)?;
        list.push(next)?;
        rest = after;
    }
    Ok((list, rest))
}
