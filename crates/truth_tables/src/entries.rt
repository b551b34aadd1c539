//! Entries of rows under their headers: parts of both, met one by one from the last on.

ghost use Rattle.std.specs.Prelude.{◌≡◌, None, IfOk};
ghost use Rattle.truth_tables.specs.Prelude.{Context, Term, term_of, view, entries_of, names_found, refusal_of};
ghost use Rattle.truth_tables.specs.{IsOver, paired, IsMet, IsPart, IsEntryRead, IsClearPair};

use crate::inside::refuse_inside;
use crate::mark::Mark;
use crate::part::{Pair, Part, part_of};
use crate::parts::parts_of;
use crate::wholes::put_whole;
use abel_tree::Expr;
use pld_base::OutOfMemory;
use set_expr::{Scope, SectionFault};
use std::alloc::{AllocError, Global};

/// Each part of a header with what represents it.
fn list_pairs<'a>(
    alloc: Global,
    headers: &[Part<'a>],
    entries: &[Part<'a>],
) -> Result<Vec<Pair<'a>>, AllocError>
    ensures { IfOk result (λ ps. ps.items ≡ paired headers.now entries.now) }
{
    headers
        .iter()
        .zip(entries)
        .map(|(header, given)| Pair {
            header: *header,
            given: *given,
        })
        .collect(alloc)
}

/// Meets one pair: puts its marks, or its members onto the stack; false if it doesn't meet.
fn step<'a>(
    alloc: Global,
    scope: &Scope<'a>,
    pair: Pair<'a>,
    stack: &mut Vec<Pair<'a>>,
    marks: &mut Vec<Mark>,
) -> Result<bool, OutOfMemory>
    requires { IsClearPair (names_found (entries_of scope.now)) pair }
    ensures { IfOk result (λ b. (d : Context) (h e : Term) → IsOver scope.now d → IsPart d pair.entry.header h → IsPart d pair.entry.given e → IsMet d h e b stack.old.items stack.new.items marks.old.items marks.new.items) }
{
    match pair.header {
        Part::Set(_, headers, outer) => match pair.given {
            Part::Set(_, entries, inner) => {
                let headers = parts_of(alloc, scope, headers, outer)?;
                let entries = parts_of(alloc, scope, entries, inner)?;
                if headers.len() != entries.len() {
                    return Ok(false);
                }
                let pairs = list_pairs(alloc, headers.as_slice(), entries.as_slice())?;
                stack.extend_from_slice(pairs.as_slice())?;
                Ok(true)
            }
            _ => put_whole(alloc, scope, pair, marks),
        },
        _ => put_whole(alloc, scope, pair, marks),
    }
}

/// What is found of an entry under its header: its first refusal, or its marks at the header's positions, from the
/// left.
#[derive(Drop)]
pub enum Entry {
    Refused(SectionFault),
    Marks(Vec<Mark>),
}

/// Reads an entry of a row that is refused so, under a header in which nothing is refused: what is refused inside is
/// alone, and else `row` if it doesn't meet the header. Takes the time of the entry and the header with the sets that
/// constants represent. Sets and names of constants are followed by a stack, so that no call goes as deep as constants
/// nest.
pub fn read_entry(
    alloc: Global,
    scope: &Scope<'_>,
    row: SectionFault,
    header: &Expr,
    entry: &Expr,
) -> Result<Entry, OutOfMemory>
    requires { refusal_of scope.now (view header.now) ≡ None }
    ensures { IfOk result (λ r. (d : Context) → IsOver scope.now d → IsEntryRead d row (term_of d.known (view header.now)) (view entry.now) r) }
{
    let inside = refuse_inside(alloc, scope, row, entry)?;
    if let Some(fault) = inside {
        return Ok(Entry::Refused(fault));
    }
    let mut marks = Vec::new(alloc);
    let mut stack = Vec::new(alloc);
    stack.push(Pair {
        header: part_of(scope, header, None),
        given: part_of(scope, entry, None),
    })?;
    while let Some(pair) = stack.pop() {
        if !step(alloc, scope, pair, &mut stack, &mut marks)? {
            return Ok(Entry::Refused(row));
        }
    }
    marks.reverse();
    Ok(Entry::Marks(marks))
}
