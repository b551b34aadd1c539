//! The walk of an output header: its outputs position by position from the left, None at X, and its first refusal.

ghost use Rattle.std.specs.Prelude.{◌≡◌, IfOk, map};
ghost use Rattle.truth_tables.specs.Prelude.{members_of, option_map, view, view_member, Context};
ghost use Rattle.truth_tables.specs.{IsOver, header_name, header_set, outputs_at, output_header, output_member, output_members, IsAdded};

use crate::part::named_part;
use crate::parts::part_signals;
use abel_tree::{Expr, Member, earlier};
use name_uses::range_list;
use pld_base::{OutOfMemory, Place};
use section_targets::{Aim, number_of, refuse_operator};
use set_expr::{Scope, SectionFault};
use std::alloc::{AllocError, Global};

/// Signals and X, all at one place.
fn list_outputs(
    alloc: Global,
    signals: &[Option<usize>],
    place: Place,
) -> Result<Vec<Option<Aim>>, AllocError>
    ensures { IfOk result (λ outputs. outputs.items ≡ outputs_at place signals.now) }
{
    signals
        .iter()
        .map(|signal| signal.map(|signal| Aim { signal, place }))
        .collect(alloc)
}

/// Appends the outputs of the name with this text, used at a place; a name that is refused has none.
pub(crate) fn push_name(
    alloc: Global,
    scope: &Scope<'_>,
    text: &[u8],
    place: Place,
    outputs: &mut Vec<Option<Aim>>,
) -> Result<Option<SectionFault>, OutOfMemory>
    ensures { IfOk result (λ f. (d : Context) → IsOver scope.now d → IsAdded (header_name d place text.now) f outputs.old.items outputs.new.items) }
{
    let found = scope.check_name(text, place);
    if found.fault.is_some() {
        return Ok(found.fault);
    }
    let signals = part_signals(alloc, scope, named_part(scope, text, None))?;
    match signals {
        None => {
            let number = number_of(scope, text);
            Ok(Some(SectionFault::NotAnOutput(place, number)))
        }
        Some(signals) => {
            let more = list_outputs(alloc, signals.as_slice(), place)?;
            outputs.extend_from_slice(&more)?;
            Ok(None)
        }
    }
}

/// A member of a header; the names of a range all are at its first end.
#[cycle(headings)]
fn push_member(
    alloc: Global,
    scope: &Scope<'_>,
    member: &Member,
    outputs: &mut Vec<Option<Aim>>,
) -> Result<Option<SectionFault>, OutOfMemory>
    ensures { IfOk result (λ f. (d : Context) → IsOver scope.now d → IsAdded (output_member d (view_member member.now)) f outputs.old.items outputs.new.items) }
{
    match member {
        Member::One(expr) => push_outputs(alloc, scope, expr, outputs),
        Member::Span { first, last } => {
            let texts = range_list(alloc, first.text.bytes(), last.text.bytes())?;
            let mut fault = None;
            for text in &texts {
                let found = push_name(alloc, scope, text.as_slice(), first.place, outputs)?;
                fault = earlier(fault, found);
            }
            Ok(fault)
        }
    }
}

/// The set of these members at this bracket, which is refused if it has more than 32 positions.
#[cycle(headings)]
fn push_set(
    alloc: Global,
    scope: &Scope<'_>,
    members: &[Member],
    place: Place,
    outputs: &mut Vec<Option<Aim>>,
) -> Result<Option<SectionFault>, OutOfMemory>
    ensures { IfOk result (λ f. (d : Context) → IsOver scope.now d → IsAdded (header_set place (output_members d (members_of (map view_member members.now)))) f outputs.old.items outputs.new.items) }
{
    let before = outputs.len();
    let mut fault = None;
    for member in members {
        let found = push_member(alloc, scope, member, outputs)?;
        fault = earlier(fault, found);
    }
    let width = outputs.len() - before;
    let wide = (width > 32).then_some(SectionFault::BadWidth(place));
    Ok(earlier(fault, wide))
}

/// Appends the outputs of a header or of a member of one, and finds its first refusal. `.X.` is a position, `.C.` and `.Z.`
/// are not.
#[cycle(headings)]
pub(crate) fn push_outputs(
    alloc: Global,
    scope: &Scope<'_>,
    expr: &Expr,
    outputs: &mut Vec<Option<Aim>>,
) -> Result<Option<SectionFault>, OutOfMemory>
    ensures { IfOk result (λ f. (d : Context) → IsOver scope.now d → IsAdded (output_header d (view expr.now)) f outputs.old.items outputs.new.items) }
{
    match expr {
        Expr::Number(number) => Ok(Some(SectionFault::NotAnOutput(number.place, None))),
        Expr::Special { letter, place } => {
            if *letter != b'X' {
                return Ok(Some(SectionFault::MisplacedSpecial(*place)));
            }
            outputs.push(None)?;
            Ok(None)
        }
        Expr::Name { word, extension } => match extension {
            Some(_) => {
                let number = number_of(scope, word.text.bytes());
                Ok(Some(SectionFault::NotAnOutput(word.place, number)))
            }
            None => push_name(alloc, scope, word.text.bytes(), word.place, outputs),
        },
        Expr::Set {
            place,
            members,
            extension,
        } => match extension {
            Some(_) => Ok(Some(SectionFault::NotAnOutput(*place, None))),
            None => push_set(alloc, scope, members.as_slice(), *place, outputs),
        },
        Expr::Paren { inner, .. } => push_outputs(alloc, scope, inner.get(), outputs),
        Expr::Unary { place, .. } => Ok(Some(SectionFault::NotAnOutput(*place, None))),
        Expr::Binary { .. } => Ok(Some(refuse_operator(scope, expr))),
    }
}
