//! Sections from tokens.

ghost use Rattle.std.specs.Prelude.{◌≡◌, ℕ, map, [], ◌∷◌};
ghost use Rattle.section_parsers.specs.Prelude.{read_made, read_followed, read_repeated, read_unless, view_decl, view_state, view_section, Gives, among, read_declarations, read_equations, read_proper, read_dont_care_section, read_sections};
ghost use Rattle.abel_grammar.specs.Modules.{last_is_bare, takes_dont_care, section_group_of};

use crate::declarations::decls;
use crate::diagrams::diagram;
use crate::statements::stmts;
use crate::tables::table;
use crate::test_vectors::vectors;
use abel_grammar::{Halt, Terminal, expect, starts};
use abel_lexer::Token;
use abel_tree::{Section, State};
use expr_parser::dont_care;
use pld_base::ListOf;
use std::alloc::Global;

const PROPER_STARTS: [Terminal; 5] = [
    Terminal::Declarations,
    Terminal::Equations,
    Terminal::TruthTable,
    Terminal::StateDiagram,
    Terminal::TestVectors,
];

/// DECLARATIONS and what is declared.
#[tactic(auto, unfolding(abel_grammar::specs::ModuleReaders::read_declarations))]
fn declarations<'a>(
    alloc: Global,
    tokens: &'a [Token],
    depth: u8,
) -> Result<(Section, &'a [Token]), Halt<'a>>
    ensures { Gives (λ x. (view_section x.0, x.1.now)) result (read_declarations depth tokens.now) }
{
    let (_word, rest) = expect(tokens, &[Terminal::Declarations])?;
    let (list, rest) = decls(alloc, rest, depth)?;
    Ok((Section::Declarations(ListOf::from_vec(list)), rest))
}

/// EQUATIONS and the statements.
#[tactic(auto, unfolding(abel_grammar::specs::ModuleReaders::read_equations))]
fn equations<'a>(
    alloc: Global,
    tokens: &'a [Token],
    depth: u8,
) -> Result<(Section, &'a [Token]), Halt<'a>>
    ensures { Gives (λ x. (view_section x.0, x.1.now)) result (read_equations depth tokens.now) }
{
    let (_word, rest) = expect(tokens, &[Terminal::Equations])?;
    let (list, rest) = stmts(alloc, rest, depth)?;
    Ok((Section::Equations(ListOf::from_vec(list)), rest))
}

/// A section that is no `@DCSET` and no `@ONSET`.
#[tactic(auto, unfolding(abel_grammar::specs::ModuleReaders::read_proper))]
fn proper<'a>(
    alloc: Global,
    tokens: &'a [Token],
    depth: u8,
) -> Result<(Section, &'a [Token]), Halt<'a>>
    ensures { Gives (λ x. (view_section x.0, x.1.now)) result (read_proper depth tokens.now) }
{
    if starts(tokens, &[Terminal::Declarations]) {
        declarations(alloc, tokens, depth)
    } else if starts(tokens, &[Terminal::Equations]) {
        equations(alloc, tokens, depth)
    } else if starts(tokens, &[Terminal::TruthTable]) {
        table(alloc, tokens, depth)
    } else if starts(tokens, &[Terminal::StateDiagram]) {
        diagram(alloc, tokens, depth)
    } else {
        vectors(alloc, tokens, depth)
    }
}

/// Whether the last state has no transition.
fn last_is_bare(states: &[State]) -> bool
    ensures { result ≡ last_is_bare (map view_state states.now) }
{
    match states.last() {
        None => false,
        Some(state) => state.transitions.as_slice().is_empty(),
    }
}

/// Whether a `@DCSET` after the section is one of its declarations or statements.
fn takes_dont_care(section: &Section) -> bool
    ensures { result ≡ takes_dont_care (view_section section.now) }
{
    match section {
        Section::Declarations(_) => true,
        Section::Equations(_) => true,
        Section::Table(_) => false,
        Section::Diagram(diagram) => last_is_bare(diagram.states.as_slice()),
        Section::Vectors(_) => false,
        Section::DontCare(_) => false,
    }
}

/// `@DCSET` or `@ONSET` as a section.
#[tactic(auto, unfolding(abel_grammar::specs::ModuleReaders::read_dont_care_section))]
fn dont_care_section<'a>(tokens: &'a [Token]) -> Result<(Section, &'a [Token]), Halt<'a>>
    ensures { Gives (λ x. (view_section x.0, x.1.now)) result (read_dont_care_section tokens.now) }
{
    let (dc, rest) = dont_care(tokens)?;
    Ok((Section::DontCare(dc), rest))
}

/// As many `@DCSET` and `@ONSET` as are there.
fn dont_cares<'a>(
    alloc: Global,
    tokens: &'a [Token],
) -> Result<(Vec<Section>, &'a [Token]), Halt<'a>>
    ensures { Gives (λ x. (map view_section x.0.items, x.1.now)) result
        (read_repeated (among (Terminal.DontCare ∷ [])) read_dont_care_section tokens.now) }
{
    let mut list = Vec::new(alloc);
    let mut rest = tokens;
    'list: while starts(rest, &[Terminal::DontCare]) {
        let (next, after) = dont_care_section(rest)?;
        list.push(next)?;
        rest = after;
    }
    Ok((list, rest))
}

/// The same, unless they belong to the section before.
fn free_dont_cares<'a>(
    alloc: Global,
    taken: bool,
    tokens: &'a [Token],
) -> Result<(Vec<Section>, &'a [Token]), Halt<'a>>
    ensures { Gives (λ x. (map view_section x.0.items, x.1.now)) result
        (read_unless taken [] (read_repeated (among (Terminal.DontCare ∷ [])) read_dont_care_section)
        tokens.now) }
{
    if taken {
        return Ok((Vec::new(alloc), tokens));
    }
    dont_cares(alloc, tokens)
}

/// A section, and the `@DCSET` and `@ONSET` after it that it doesn't take.
fn group<'a>(
    alloc: Global,
    tokens: &'a [Token],
    depth: u8,
) -> Result<(Vec<Section>, &'a [Token]), Halt<'a>>
    ensures { Gives (λ x. (map view_section x.0.items, x.1.now)) result
        (read_made section_group_of (read_followed (read_proper depth) (λ s. read_unless (takes_dont_care s) []
        (read_repeated (among (Terminal.DontCare ∷ [])) read_dont_care_section))) tokens.now) }
{
    let (first, rest) = proper(alloc, tokens, depth)?;
    let taken = takes_dont_care(&first);
    let (mut list, rest) = free_dont_cares(alloc, taken, rest)?;
    list.insert(0, first)?;
    Ok((list, rest))
}

/// All sections.
#[tactic(auto, unfolding(abel_grammar::specs::ModuleReaders::read_sections))]
pub fn sections<'a>(
    alloc: Global,
    tokens: &'a [Token],
    depth: u8,
) -> Result<(Vec<Section>, &'a [Token]), Halt<'a>>
    ensures { Gives (λ x. (map view_section x.0.items, x.1.now)) result (read_sections depth tokens.now) }
{
    let mut list = Vec::new(alloc);
    let mut rest = tokens;
    'list: while starts(rest, &PROPER_STARTS) {
        let (mut more, after) = group(alloc, rest, depth)?;
        list.append(&mut more)?;
        rest = after;
    }
    Ok((list, rest))
}
