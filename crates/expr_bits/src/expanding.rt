//! Expressions as work on their parts.

ghost use Rattle.std.specs.Prelude.{◌≡◌, ◌<◌, ◌≤◌, ◌+◌, Option, List, [], ◌∷◌, ◌++◌, map, take, IfOk};
ghost use Rattle.expr_bits.specs.Prelude.{AnExtension, Entry, entries_of, members_of, view, view_member, Context, Term, Terms, extended_if, known_of, member_before, named_before, special_term, term_of, terms_of, name_items};
ghost use Rattle.abel_meaning.specs.Terms as term;
ghost use Rattle.expr_bits.specs.{Part, ComesTo, Precedes, tasks_of, Do, Push, after_all, after_task, member_weight, members_weight, name_weight, range_weight, stack_weight, tree_weight, work_weight};

use crate::work::{Outer, Step, Work, name_work};
use abel_tree::{Expr, Member};
use name_uses::range_list;
use pld_base::OutOfMemory;
use set_expr::Scope;
use std::alloc::Global;

/// One more, to be done before the others.
fn first_of<'a>(work: Vec<Work<'a>>, next: Work<'a>) -> Result<Vec<Work<'a>>, OutOfMemory>
    ensures { IfOk result (λ new. new.items ≡ work.entry.items ++ next.entry ∷ []) }
{
    let mut work = work;
    work.push(next)?;
    Ok(work)
}

/// A value as the member before those of the set that is built first.
fn with_value<'a>(work: Vec<Work<'a>>, next: Work<'a>) -> Result<Vec<Work<'a>>, OutOfMemory>
    ensures comes { IfOk result (λ new. (es : List Entry) (e : Option AnExtension) (t : Term) (ts : Terms) → ComesTo es next.entry (extended_if e t)
        → Precedes es e new.items work.entry.items ts (term.Before t ts)) }
    ensures weight { IfOk result (λ new. (es : List Entry) → stack_weight es new.items ≡ stack_weight es work.entry.items + (1 + work_weight es next.entry)) }
{
    let work = first_of(work, Work::Do(Step::Member))?;
    first_of(work, next)
}

/// The names of a range as the members before those of the set that is built first.
fn with_names<'a>(
    scope: &Scope<'a>,
    names: &[Vec<u8>],
    outer: Outer,
    work: Vec<Work<'a>>,
) -> Result<Vec<Work<'a>>, OutOfMemory>
    ensures comes { IfOk result (λ new. (ts : Terms) → Precedes (entries_of scope.now) outer.extension new.items work.entry.items ts
        (named_before (known_of (take outer.count (entries_of scope.now))) (map name_items names.now) ts)) }
    ensures weight { IfOk result (λ new. stack_weight (entries_of scope.now) new.items
        ≤ stack_weight (entries_of scope.now) work.entry.items + range_weight (name_weight (entries_of scope.now) outer.count) (map name_items names.now)) }
{
    let mut more = work;
    for name in names {
        more = with_value(more, name_work(scope, name.as_slice(), outer))?;
    }
    Ok(more)
}

/// A member before those of the set that is built first.
fn with_member<'a>(
    alloc: Global,
    scope: &Scope<'a>,
    member: &'a Member,
    outer: Outer,
    work: Vec<Work<'a>>,
) -> Result<Vec<Work<'a>>, OutOfMemory>
    ensures comes { IfOk result (λ new. (ts : Terms) → Precedes (entries_of scope.now) outer.extension new.items work.entry.items ts
        (member_before (known_of (take outer.count (entries_of scope.now))) (view_member member.now) ts)) }
    ensures weight { IfOk result (λ new. stack_weight (entries_of scope.now) new.items
        ≤ stack_weight (entries_of scope.now) work.entry.items + member_weight (name_weight (entries_of scope.now) outer.count) (view_member member.now)) }
{
    match member {
        Member::One(expr) => with_value(work, Work::Whole(expr, outer)),
        Member::Span { first, last } => {
            let names = range_list(alloc, first.text.bytes(), last.text.bytes())?;
            with_names(scope, names.as_slice(), outer, work)
        }
    }
}

/// The members of a set as work on the first one and the others, of which the others are built first; a set without members
/// is a step.
pub(crate) fn expand_members<'a>(
    alloc: Global,
    scope: &Scope<'a>,
    members: &'a [Member],
    outer: Outer,
    work: Vec<Work<'a>>,
) -> Result<Vec<Work<'a>>, OutOfMemory>
    ensures comes { IfOk result (λ new. (d : Context) (ps : List Part)
        → after_all d (tasks_of (entries_of scope.now) new.items) ps
        ≡ after_all d (Push (extended_if outer.extension (term.Set
        (terms_of (known_of (take outer.count (entries_of scope.now))) (members_of (map view_member members.now)))))
        ∷ tasks_of (entries_of scope.now) work.entry.items) ps) }
    ensures weight { IfOk result (λ new. stack_weight (entries_of scope.now) new.items
        < stack_weight (entries_of scope.now) work.entry.items + members_weight (name_weight (entries_of scope.now) outer.count) (members_of (map view_member members.now))) }
{
    match members.split_first() {
        Some((member, others)) => {
            let work = with_member(alloc, scope, member, outer, work)?;
            first_of(work, Work::Members(others, outer))
        }
        None => first_of(work, Work::Do(Step::Empty)),
    }
}

/// An expression as work on its parts, to be done before the others.
pub(crate) fn expand<'a>(
    scope: &Scope<'a>,
    expr: &'a Expr,
    outer: Outer,
    work: Vec<Work<'a>>,
) -> Result<Vec<Work<'a>>, OutOfMemory>
    ensures comes { IfOk result (λ new. (d : Context) (ps : List Part)
        → after_all d (tasks_of (entries_of scope.now) new.items) ps
        ≡ after_all d (Push (extended_if outer.extension
        (term_of (known_of (take outer.count (entries_of scope.now))) (view expr.now)))
        ∷ tasks_of (entries_of scope.now) work.entry.items) ps) }
    ensures weight { IfOk result (λ new. stack_weight (entries_of scope.now) new.items
        < stack_weight (entries_of scope.now) work.entry.items + tree_weight (name_weight (entries_of scope.now) outer.count) (view expr.now)) }
{
    match expr {
        Expr::Number(number) => first_of(work, Work::Do(Step::Number(number.value))),
        Expr::Special { letter, place: _ } => first_of(work, Work::Do(special_step(*letter))),
        Expr::Name { word, extension } => {
            let next = name_work(scope, word.text.bytes(), outer.inside(*extension));
            first_of(work, next)
        }
        Expr::Set {
            place: _,
            members,
            extension,
        } => first_of(
            work,
            Work::Members(members.as_slice(), outer.inside(*extension)),
        ),
        Expr::Paren { place: _, inner } => { first_of(work, Work::Whole(inner.get(), outer)) }
        Expr::Unary {
            sign,
            place: _,
            inner,
        } => {
            let work = first_of(work, Work::Do(Step::Under(*sign)))?;
            first_of(work, Work::Whole(inner.get(), outer))
        }
        Expr::Binary {
            sign,
            place: _,
            left,
            right,
        } => {
            let work = first_of(work, Work::Do(Step::Both(*sign)))?;
            let work = first_of(work, Work::Whole(right.get(), outer))?;
            first_of(work, Work::Whole(left.get(), outer))
        }
    }
}

/// `.X.`, or a special that has no value.
fn special_step(letter: u8) -> Step
    ensures { (d : Context) (ps : List Part) → after_task d (Do result) ps ≡ after_task d (Push (special_term letter)) ps }
{
    if letter == b'X' {
        Step::Unknown
    } else {
        Step::Number(0)
    }
}
