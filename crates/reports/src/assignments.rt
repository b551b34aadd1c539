//! Names that are assigned a second time.

ghost use Rattle.std.specs.Prelude.{◌≡◌, ◌++◌, ◌∷◌, [], List, OnOk, bytes_eq, filter_map, map, option_map};
ghost use Rattle.std.specs.List.{list_any};
ghost use Rattle.abel_tree.specs.View.{view_stmt};
ghost use Rattle.abel_tree.specs.declared.words.Word.{Word};
ghost use Rattle.reports.specs.Warnings.{name_assigned, seconds};

use crate::warning::{Cause, Found};
use abel_tree::{Expr, Stmt, Word};
use pld_base::OutOfMemory;
use std::alloc::Global;

/// The name that a statement assigns outside of any choice.
fn target(statement: &Stmt) -> Option<&Word>
    ensures { option_map (λ w. w.now) result ≡ name_assigned (view_stmt statement.now) }
{
    match statement {
        Stmt::Assign(assign) => match &assign.target {
            Expr::Name {
                word,
                extension: None,
            } => Some(word),
            _ => None,
        },
        _ => None,
    }
}

/// Whether a name is among those that were seen.
fn is_seen(seen: &[&[u8]], name: &[u8]) -> bool
    ensures { result ≡ list_any (λ s. bytes_eq name.now s.now) seen.now }
{
    seen.iter().any(|other| name == *other)
}

/// Gives an assignment of a name that was seen; else the name is seen from now on.
fn find_second<'a>(
    found: &mut Found,
    seen: &mut Vec<&'a [u8]>,
    word: &'a Word,
) -> Result<(), OutOfMemory>
    ensures { OnOk result ((ws : List Word) → found.new ++ seconds (map (λ s. s.now) seen.new.items) ws
        ≡ found.old ++ seconds (map (λ s. s.now) seen.old.items) (word.now ∷ ws)) }
{
    let name = word.text.bytes();
    if is_seen(seen, name) {
        found.add(Cause::SecondAssignment, word.place, name)?;
    } else {
        seen.push(name)?;
    }
    Ok(())
}

/// Finds the statements, outside of choices, that assign a name which one before them assigns.
pub fn find_second_assignments(
    alloc: Global,
    found: &mut Found,
    statements: &[Stmt],
) -> Result<(), OutOfMemory>
    ensures { OnOk result (found.new
        ≡ found.old ++ seconds [] (filter_map name_assigned (map view_stmt statements.now))) }
{
    let mut seen: Vec<&[u8]> = Vec::new(alloc);
    for statement in statements {
        if let Some(word) = target(statement) {
            find_second(found, &mut seen, word)?;
        }
    }
    Ok(())
}
