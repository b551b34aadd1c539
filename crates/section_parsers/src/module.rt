//! A module from tokens.

ghost use Rattle.std.specs.Prelude.{◌≡◌, ℕ, map, [], ◌∷◌, option_map};
ghost use Rattle.section_parsers.specs.Prelude.{read_optional, view_decl, view_section, view_module, Gives, among, read_title, read_options, read_first_decls, read_ending, read_body, read_source};

use crate::declarations::{decls, other_decl};
use crate::items::option;
use crate::sections::sections;
use abel_grammar::{Halt, Terminal, expect, starts};
use abel_lexer::Token;
use abel_tree::{Decl, Module, Section, Word};
use expr_parser::{maybe, name, text};
use pld_base::ListOf;
use std::alloc::Global;

const OPTION_WORDS: [Terminal; 2] = [Terminal::Flag, Terminal::Options];

const OTHER_STARTS: [Terminal; 3] = [Terminal::Not, Terminal::Identifier, Terminal::DontCare];

/// The sections, END, its name and its `;`.
type Ending<'a> = (
    Vec<Section>,
    (&'a Token, (Option<&'a Token>, Option<&'a Token>)),
);

/// The options, the declarations and the ending.
type Body<'a> = (Vec<Word>, (Vec<Decl>, Ending<'a>));

/// TITLE and its string.
#[tactic(auto, unfolding(abel_grammar::specs::ModuleReaders::read_title))]
fn title<'a>(alloc: Global, tokens: &'a [Token]) -> Result<(Word, &'a [Token]), Halt<'a>>
    ensures { Gives (λ x. (x.0, x.1.now)) result (read_title tokens.now) }
{
    let (_title, rest) = expect(tokens, &[Terminal::Title])?;
    let (word, rest) = text(alloc, rest)?;
    let (_end, rest) = maybe(rest, Terminal::Semicolon);
    Ok((word, rest))
}

/// TITLE and its string, if they are there.
fn some_title<'a>(
    alloc: Global,
    tokens: &'a [Token],
) -> Result<(Option<Word>, &'a [Token]), Halt<'a>>
    ensures { Gives (λ x. (x.0, x.1.now)) result
        (read_optional (among (Terminal.Title ∷ [])) read_title tokens.now) }
{
    if !starts(tokens, &[Terminal::Title]) {
        return Ok((None, tokens));
    }
    let (word, rest) = title(alloc, tokens)?;
    Ok((Some(word), rest))
}

/// The strings of all options that are there.
#[tactic(auto, unfolding(abel_grammar::specs::ModuleReaders::read_options))]
fn options<'a>(alloc: Global, tokens: &'a [Token]) -> Result<(Vec<Word>, &'a [Token]), Halt<'a>>
    ensures { Gives (λ x. (x.0.items, x.1.now)) result (read_options tokens.now) }
{
    let mut list = Vec::new(alloc);
    let mut rest = tokens;
    'list: while starts(rest, &OPTION_WORDS) {
        let (mut more, after) = option(alloc, rest)?;
        list.append(&mut more)?;
        rest = after;
    }
    Ok((list, rest))
}

/// The declarations after the options; the first is no option.
#[tactic(auto, unfolding(abel_grammar::specs::ModuleReaders::read_first_decls))]
fn first_decls<'a>(
    alloc: Global,
    tokens: &'a [Token],
    depth: u8,
) -> Result<(Vec<Decl>, &'a [Token]), Halt<'a>>
    ensures { Gives (λ x. (map view_decl x.0.items, x.1.now)) result (read_first_decls depth tokens.now) }
{
    if starts(tokens, &OTHER_STARTS) {
        let (first, rest) = other_decl(alloc, tokens, depth)?;
        let (mut list, rest) = decls(alloc, rest, depth)?;
        list.insert(0, first)?;
        return Ok((list, rest));
    }
    Ok((Vec::new(alloc), tokens))
}

/// The sections and what ends the module.
fn ending<'a>(
    alloc: Global,
    tokens: &'a [Token],
    depth: u8,
) -> Result<(Ending<'a>, &'a [Token]), Halt<'a>>
    ensures { Gives (λ x. (
      (
        map view_section x.0.0.items,
        (
          x.0.1.0.now,
          (option_map (λ t. t.now) x.0.1.1.0, option_map (λ t. t.now) x.0.1.1.1),
        ),
      ),
      x.1.now,
    )) result
        (read_ending depth tokens.now) }
{
    let (sections, rest) = sections(alloc, tokens, depth)?;
    let (end, rest) = expect(rest, &[Terminal::End])?;
    let (name, rest) = maybe(rest, Terminal::Identifier);
    let (stop, rest) = maybe(rest, Terminal::Semicolon);
    Ok(((sections, (end, (name, stop))), rest))
}

/// What follows the module's name and title.
fn body<'a>(
    alloc: Global,
    tokens: &'a [Token],
    depth: u8,
) -> Result<(Body<'a>, &'a [Token]), Halt<'a>>
    ensures { Gives (λ x. (
      (
        x.0.0.items,
        (
          map view_decl x.0.1.0.items,
          (
            map view_section x.0.1.1.0.items,
            (
              x.0.1.1.1.0.now,
              (
                option_map (λ t. t.now) x.0.1.1.1.1.0,
                option_map (λ t. t.now) x.0.1.1.1.1.1,
              ),
            ),
          ),
        ),
      ),
      x.1.now,
    )) result (read_body depth tokens.now) }
{
    let (options, rest) = options(alloc, tokens)?;
    let (decls, rest) = first_decls(alloc, rest, depth)?;
    let (ending, rest) = ending(alloc, rest, depth)?;
    Ok(((options, (decls, ending)), rest))
}

/// A module, with at most so many nestings open.
#[tactic(auto, unfolding(abel_grammar::specs::ModuleReaders::read_source))]
pub fn source<'a>(
    alloc: Global,
    tokens: &'a [Token],
    depth: u8,
) -> Result<(Module, &'a [Token]), Halt<'a>>
    ensures { Gives (λ x. (view_module x.0, x.1.now)) result (read_source depth tokens.now) }
{
    let (word, rest) = expect(tokens, &[Terminal::Module])?;
    let place = word.place;
    let (name, rest) = name(alloc, rest)?;
    let (_end, rest) = maybe(rest, Terminal::Semicolon);
    let (title, rest) = some_title(alloc, rest)?;
    let ((options, (decls, (sections, _ending))), rest) = body(alloc, rest, depth)?;
    Ok((
        Module {
            place,
            name,
            title,
            options: ListOf::from_vec(options),
            decls: ListOf::from_vec(decls),
            sections: ListOf::from_vec(sections),
        },
        rest,
    ))
}
