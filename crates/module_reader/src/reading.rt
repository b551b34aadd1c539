//! The module of a text.

ghost use Rattle.std.specs.Prelude.{◌≡◌, ◌≤◌, length, IfOk, IfErr};
ghost use Rattle.abel_tree.specs.Tree.{ModuleTree};
ghost use Rattle.abel_tree.specs.View.{view_module};
ghost use Rattle.abel_grammar.specs.Order.{SectionsRise};
ghost use Rattle.module_reader.specs.Texts.{SpellsModule, IsRead, IsUnread};

use crate::fault::{ReadFault, of_expanding, of_parsing, of_scanning};
use abel_expand::expand;
use abel_lexer::{Token, place_past, scan};
use abel_parser::parse;
use abel_tree::Module;
use pld_base::Place;
use std::alloc::Global;

/// The beginning of a text.
const FIRST: Place = Place { line: 1, column: 1 };

/// The one module that a text of at most 1,048,576 bytes spells: its macros and directives are expanded, the
/// expanded text is scanned, and its tokens are parsed. Places are those in the expanded text.
///
/// Answers the first refusal by place of the first of these three that has one.
pub fn read_module(alloc: Global, text: &[u8]) -> Result<Module, ReadFault>
    requires { length text.now ≤ 1048576 }
    ensures read { IfOk result (λ m. IsRead text.now (view_module m)) }
    ensures only { IfOk result (λ m. (t : ModuleTree) → SpellsModule text.now t → t ≡ view_module m) }
    ensures rising { IfOk result (λ m. SectionsRise (view_module m).sections) }
    ensures refused { IfErr result (IsUnread text.now) }
{
    let expanded = match expand(alloc, text) {
        Ok(expanded) => expanded,
        Err(fault) => return Err(of_expanding(fault)),
    };
    let tokens = match scan(alloc, expanded.as_slice()) {
        Ok(tokens) => tokens,
        Err(fault) => return Err(of_scanning(fault)),
    };
    let end = place_past(FIRST, expanded.as_slice());
    match parse(alloc, tokens.as_slice(), end) {
        Ok(module) => Ok(module),
        Err(fault) => Err(of_parsing(fault)),
    }
}
