//! The parts of the members of sets, and the signals that a header names.

ghost use Rattle.std.specs.Prelude.{Bool, map, IfOk};
ghost use Rattle.truth_tables.specs.Prelude.{members_of, view, view_member, Context, NoTerm, Term, term_of, terms_of, member_before, entries_of, names_found};
ghost use Rattle.expr_bits.specs.Members.{list_of, each_extended};
ghost use Rattle.truth_tables.specs.{IsOver, AreParts, AreSignals, HasTerm, IsListed, IsPart, AreClear, IsClearMember, AreClearParts};

use crate::part::{Part, named_part, part_of};
use abel_tree::{Expr, Extension, Member};
use name_uses::range_list;
use pld_base::OutOfMemory;
use set_expr::Scope;
use std::alloc::Global;

/// The parts of a member under an extension.
fn member_parts<'a>(
    alloc: Global,
    scope: &Scope<'a>,
    member: &'a Member,
    outer: Option<Extension>,
) -> Result<Vec<Part<'a>>, OutOfMemory>
    ensures parts { IfOk result (λ ps. (d : Context) → IsOver scope.now d → AreParts d ps.items (each_extended outer (list_of (member_before d.known (view_member member.now) NoTerm)))) }
    ensures clear { IfOk result (λ ps. (b : Bool) → IsClearMember b (names_found (entries_of scope.now)) (view_member member.now)
        → AreClearParts b (names_found (entries_of scope.now)) ps.items) }
{
    let mut parts = Vec::new(alloc);
    match member {
        Member::One(expr) => {
            parts.push(part_of(scope, expr, outer))?;
            Ok(parts)
        }
        Member::Span { first, last } => {
            let names = range_list(alloc, first.text.bytes(), last.text.bytes())?;
            for name in &names {
                parts.push(named_part(scope, name.as_slice(), outer))?;
            }
            Ok(parts)
        }
    }
}

/// The parts of a set's members under an extension.
pub(crate) fn parts_of<'a>(
    alloc: Global,
    scope: &Scope<'a>,
    members: &'a [Member],
    outer: Option<Extension>,
) -> Result<Vec<Part<'a>>, OutOfMemory>
    ensures parts { IfOk result (λ ps. (d : Context) → IsOver scope.now d → AreParts d ps.items (each_extended outer (list_of (terms_of d.known (members_of (map view_member members.now)))))) }
    ensures clear { IfOk result (λ ps. (b : Bool) → AreClear b (names_found (entries_of scope.now)) (members_of (map view_member members.now))
        → AreClearParts b (names_found (entries_of scope.now)) ps.items) }
{
    let mut parts = Vec::new(alloc);
    for member in members {
        let more = member_parts(alloc, scope, member, outer)?;
        parts.extend_from_slice(more.as_slice())?;
    }
    Ok(parts)
}

/// One part: its signal or X, or its members onto the stack; false if it is something else.
fn put_part<'a>(
    alloc: Global,
    scope: &Scope<'a>,
    part: Part<'a>,
    stack: &mut Vec<Part<'a>>,
    signals: &mut Vec<Option<usize>>,
) -> Result<bool, OutOfMemory>
    ensures { IfOk result (λ b. (d : Context) (t : Term) → IsOver scope.now d → IsPart d part.entry t → IsListed d t b stack.old.items stack.new.items signals.old.items signals.new.items) }
{
    match part {
        Part::Set(_, members, outer) => {
            let parts = parts_of(alloc, scope, members, outer)?;
            stack.extend_from_slice(parts.as_slice())?;
            Ok(true)
        }
        Part::Signal(signal, extension) => {
            if extension.is_some() {
                return Ok(false);
            }
            signals.push(Some(signal))?;
            Ok(true)
        }
        Part::Special(letter) => {
            if letter != b'X' {
                return Ok(false);
            }
            signals.push(None)?;
            Ok(true)
        }
        Part::Number(_) => Ok(false),
        Part::Operator(_) => Ok(false),
    }
}

/// The signals of a part from the left, None at X; None if it names something else than signals without extension, X
/// and sets of these. Sets and names of constants are followed by a stack.
pub(crate) fn part_signals(
    alloc: Global,
    scope: &Scope<'_>,
    part: Part<'_>,
) -> Result<Option<Vec<Option<usize>>>, OutOfMemory>
    requires { (d : Context) → IsOver scope.now d → HasTerm d part }
    ensures { IfOk result (λ ss. (d : Context) (t : Term) → IsOver scope.now d → IsPart d part.entry t → AreSignals t ss) }
{
    let mut signals = Vec::new(alloc);
    let mut stack = Vec::new(alloc);
    stack.push(part)?;
    while let Some(top) = stack.pop() {
        if !put_part(alloc, scope, top, &mut stack, &mut signals)? {
            return Ok(None);
        }
    }
    signals.reverse();
    Ok(Some(signals))
}

/// The signals of a header from the left, None at X; None if it names something else than signals without extension, X
/// and sets of these. It is asked only of headers in which nothing is refused.
pub fn header_signals(
    alloc: Global,
    scope: &Scope<'_>,
    header: &Expr,
) -> Result<Option<Vec<Option<usize>>>, OutOfMemory>
    ensures { IfOk result (λ ss. (d : Context) → IsOver scope.now d → AreSignals (term_of d.known (view header.now)) ss) }
{
    part_signals(alloc, scope, part_of(scope, header, None))
}
