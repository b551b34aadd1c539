//! Statements: their first refusals, and what they contribute.

ghost use Rattle.abel_tree.specs.Entries.{entries_of};
ghost use Rattle.set_expr.specs.Scopes.{AreInOrder, ArePlaced};

use crate::places::{put_blank, put_fault, put_place};
use crate::sources::{Source, module_of, source_of};
use abel_tree::{Module, Section, Stmt};
use bit_expr::ExprId;
use equations::walk_statements;
use pld_device::{Sample, load};
use section_targets::{SectionScope, Walked};
use set_expr::{Contribution, Guard, Scope};
use std::alloc::Global;
use test_rows::Found;

/// Nothing surrounds the statements.
const ALWAYS: Guard = Guard {
    when: ExprId(1),
    dontcare: false,
    block: None,
};

/// The statements of the one section.
fn statements_of(module: &Module) -> Option<&[Stmt]> {
    match module.sections.as_slice() {
        [Section::Equations(list)] => Some(list.as_slice()),
        _ => None,
    }
}

/// A contribution's signal, whether it is to the complement, and its place.
fn put_contribution(given: &Contribution, found: &mut Found) {
    put_blank(found);
    if given.complement {
        found.text("!");
    }
    found.number(given.target.signal);
    found.text(" at ");
    put_place(given.place, found);
    found.text(",")
}

/// Two contributions, and whether they have one bit.
fn put_both(list: &[Contribution], found: &mut Found) -> Option<()> {
    let [first, second] = list else {
        return None;
    };
    put_contribution(first, found);
    put_contribution(second, found);
    found.text(if first.when == second.when {
        " one bit"
    } else {
        " two bits"
    });
    Some(())
}

/// What is found of the statements of a source.
fn walked_of(alloc: Global, source: &Source) -> Option<Walked>
    requires order { AreInOrder (entries_of source.now.names) }
    requires placed { ArePlaced source.now.names }
{
    let known = Scope::new(alloc, &source.names).ok()?;
    let device = load::<Sample, Sample>(&Sample);
    let scope = SectionScope::new(alloc, &device, known).ok()?;
    let stmts = statements_of(&source.module)?;
    let mut walked = Walked::new(alloc);
    walk_statements::<Sample>(alloc, &scope, ALWAYS, stmts, &mut walked).ok()?;
    Some(walked)
}

/// Puts what is asked of statements: their first refusal, or what their two contributions are.
pub(crate) fn ask(
    alloc: Global,
    question: &str,
    names: &Found,
    text: &str,
    found: &mut Found,
) -> Option<()> {
    let module = module_of(alloc, names, "equations", text, "")?;
    let source = source_of::<Sample>(alloc, &load::<Sample, Sample>(&Sample), module)?;
    let walked = walked_of(alloc, &source)?;
    match question {
        "refusals" => {
            put_fault(walked.fault, found);
            Some(())
        }
        _ => match walked.fault {
            None => put_both(walked.list.as_slice(), found),
            Some(_) => None,
        },
    }
}
