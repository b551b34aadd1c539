//! The signals of all names of a source, made once for all its targets.

ghost use Rattle.std.specs.Prelude.{◌≡◌, ◌<◌, ℕ, List, IfOk, length};
ghost use Rattle.section_targets.specs.Prelude.{entries_of, view_meaning, view, view_member, Terms, Known, term_of, term_meant, known_of, member_before};
ghost use Rattle.section_targets.specs.{IsOfTerm, IsOfMembers, StandFor};

use crate::named::{NamedSignals, Targets};
use abel_tree::{Expr, Meaning, Member};
use name_uses::range_list;
use pld_base::{ListOf, OutOfMemory};
use set_expr::Scope;
use std::alloc::Global;

/// The signals that each name of a source represents, in the order of the names: a signal itself, and a constant the
/// signals of its set.
pub fn target_names(alloc: Global, scope: &Scope<'_>) -> Result<ListOf<NamedSignals>, OutOfMemory>
    ensures { IfOk result (λ named. StandFor (length (entries_of scope.now)) (entries_of scope.now) named (known_of (entries_of scope.now))) }
{
    let mut named = Vec::new(alloc);
    for (number, declared) in scope.list().iter().enumerate() {
        let targets = Targets {
            alloc,
            scope: &*scope,
            named: named.as_slice(),
        };
        let signals = named_meaning(&targets, &declared.meaning, number)?;
        named.push(signals)?;
    }
    Ok(ListOf::from_vec(named))
}

/// The signals of the name with this number, by those of the names before it.
fn named_meaning(
    targets: &Targets<'_>,
    meaning: &Meaning,
    number: usize,
) -> Result<NamedSignals, OutOfMemory>
    ensures { IfOk result (λ n. (count : ℕ) (ks : List Known) → number < count → StandFor count (entries_of targets.now.scope.now) targets.now.named.now ks → IsOfTerm count n (term_meant ks number (view_meaning meaning.now))) }
{
    match meaning {
        Meaning::Pin { .. } | Meaning::Node(_) => NamedSignals::one(targets.alloc, number),
        Meaning::Constant(expr) => named_expr(targets, expr),
        Meaning::DeviceName => Ok(NamedSignals::none(targets.alloc, false)),
    }
}

/// The signals of an expression. Calls go as deep as the nestings of sets and parentheses.
#[cycle(naming)]
fn named_expr(targets: &Targets<'_>, expr: &Expr) -> Result<NamedSignals, OutOfMemory>
    ensures { IfOk result (λ n. (count : ℕ) (ks : List Known) → StandFor count (entries_of targets.now.scope.now) targets.now.named.now ks → IsOfTerm count n (term_of ks (view expr.now))) }
{
    match expr {
        Expr::Name { word, extension } => {
            let signals = NamedSignals::of_name(targets, word.text.bytes())?;
            Ok(signals.extended(*extension))
        }
        Expr::Set {
            members,
            extension,
            ..
        } => {
            let list = members.as_slice();
            let mut signals = NamedSignals::none(targets.alloc, true);
            for index in (0..list.len()).rev() {
                signals = named_member(targets, &list[index], signals)?;
            }
            Ok(signals.extended(*extension))
        }
        Expr::Paren { inner, .. } => named_expr(targets, inner.get()),
        Expr::Special { .. } | Expr::Number(_) | Expr::Unary { .. } | Expr::Binary { .. } => {
            Ok(NamedSignals::none(targets.alloc, false))
        }
    }
}

/// One member before others.
#[cycle(naming)]
fn named_member(
    targets: &Targets<'_>,
    member: &Member,
    rest: NamedSignals,
) -> Result<NamedSignals, OutOfMemory>
    ensures { IfOk result (λ n. (count : ℕ) (ks : List Known) (ts : Terms) → StandFor count (entries_of targets.now.scope.now) targets.now.named.now ks → IsOfMembers count rest ts → IsOfMembers count n (member_before ks (view_member member.now) ts)) }
{
    match member {
        Member::One(expr) => {
            let signals = named_expr(targets, expr)?;
            signals.with(&rest)
        }
        Member::Span { first, last } => {
            let list = range_list(targets.alloc, first.text.bytes(), last.text.bytes())?;
            let names = list.as_slice();
            let mut signals = rest;
            for index in (0..names.len()).rev() {
                let name = NamedSignals::of_name(targets, names[index].as_slice())?;
                signals = name.with(&signals)?;
            }
            Ok(signals)
        }
    }
}
