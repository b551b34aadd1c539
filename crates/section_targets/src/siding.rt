//! The walk of a target.

ghost use Rattle.std.specs.Prelude.{◌≡◌, IfOk, length, map};
ghost use Rattle.section_targets.specs.Prelude.{entries_of, members_of, view, view_member, Context, NotAnOutput, first_place};
ghost use Rattle.section_targets.specs.{IsSide, AreTargets, TargetFound, targets_both, target_one, target_member, target_members, target_set, left_side, first_name};

use crate::named::Targets;
use crate::sides::{Side, number_of, refuse_wide};
use abel_tree::{Expr, Member, earlier};
use name_uses::range_list;
use pld_base::{OutOfMemory, Place};
use set_expr::{Scope, SectionFault};

/// The left side of an assignment that begins at this place, whose extension counts outside: its signals, or its first
/// refusal. Calls go as deep as the nestings of sets and parentheses.
pub(crate) fn left_side(
    targets: &Targets<'_>,
    place: Place,
    target: &Expr,
) -> Result<Side, OutOfMemory>
    ensures { IfOk result (λ s. (d : Context) → d.names ≡ entries_of targets.now.scope.now → AreTargets d targets.now.named.now → IsSide (length d.names) s (left_side d place (view target.now))) }
{
    match target {
        Expr::Name { word, extension: _ } => {
            Side::of_name(targets, word.text.bytes(), word.place, place)
        }
        Expr::Set {
            place: bracket,
            members,
            extension: _,
        } => set_side(targets, members.as_slice(), *bracket),
        _ => member_side(targets, target),
    }
}

/// What is no name alone, in a target or header: refused as no output at its beginning. Takes no memory.
pub fn refuse_operator(scope: &Scope<'_>, expr: &Expr) -> SectionFault
    ensures { result ≡ NotAnOutput (first_place (view expr.now)) (first_name (entries_of scope.now) (view expr.now)) }
{
    let mut first = expr;
    loop {
        match first {
            Expr::Binary { left, .. } => first = left.get(),
            Expr::Name { word, .. } => {
                return SectionFault::NotAnOutput(word.place, number_of(scope, word.text.bytes()));
            }
            Expr::Number(number) => return SectionFault::NotAnOutput(number.place, None),
            Expr::Special { place, .. }
            | Expr::Set { place, .. }
            | Expr::Paren { place, .. }
            | Expr::Unary { place, .. } => return SectionFault::NotAnOutput(*place, None),
        }
    }
}

/// The set of these members at this bracket.
#[cycle(siding)]
fn set_side(targets: &Targets<'_>, members: &[Member], place: Place) -> Result<Side, OutOfMemory>
    ensures { IfOk result (λ s. (d : Context) → d.names ≡ entries_of targets.now.scope.now → AreTargets d targets.now.named.now → IsSide (length d.names) s (target_set place (target_members d (members_of (map view_member members.now))))) }
{
    let mut side = Side::empty(targets.alloc, None);
    for index in (0..members.len()).rev() {
        side = with_member(targets, &members[index], side)?;
    }
    let fault = earlier(side.fault, refuse_wide(place, side.aims.as_slice().len()));
    Ok(Side { fault, ..side })
}

/// One member before others.
#[cycle(siding)]
fn with_member(targets: &Targets<'_>, member: &Member, rest: Side) -> Result<Side, OutOfMemory>
    ensures { IfOk result (λ s. (d : Context) (x : TargetFound) → d.names ≡ entries_of targets.now.scope.now → AreTargets d targets.now.named.now → IsSide (length d.names) rest x → IsSide (length d.names) s (targets_both (target_one d (view_member member.now)) x)) }
{
    match member {
        Member::One(expr) => {
            let side = member_side(targets, expr)?;
            side.with(&rest)
        }
        Member::Span { first, last } => {
            let place = first.place;
            let list = range_list(targets.alloc, first.text.bytes(), last.text.bytes())?;
            let names = list.as_slice();
            let mut side = rest;
            for index in (0..names.len()).rev() {
                let name = Side::of_name(targets, names[index].as_slice(), place, place)?;
                side = name.with(&side)?;
            }
            Ok(side)
        }
    }
}

/// A member of a target, or a header of registers, which takes no extension. Calls go as deep as the nestings of sets and
/// parentheses.
#[cycle(siding)]
pub(crate) fn member_side(targets: &Targets<'_>, expr: &Expr) -> Result<Side, OutOfMemory>
    ensures { IfOk result (λ s. (d : Context) → d.names ≡ entries_of targets.now.scope.now → AreTargets d targets.now.named.now → IsSide (length d.names) s (target_member d (view expr.now))) }
{
    match expr {
        Expr::Name { word, extension } => match extension {
            Some(_) => Ok(Side::empty(targets.alloc, Some(refuse_operator(targets.scope, expr)))),
            None => Side::of_name(targets, word.text.bytes(), word.place, word.place),
        },
        Expr::Set {
            place,
            members,
            extension,
        } => match extension {
            Some(_) => Ok(Side::empty(targets.alloc, Some(refuse_operator(targets.scope, expr)))),
            None => set_side(targets, members.as_slice(), *place),
        },
        Expr::Paren { inner, .. } => member_side(targets, inner.get()),
        Expr::Special { place, .. } => {
            Ok(Side::empty(targets.alloc, Some(SectionFault::MisplacedSpecial(*place))))
        }
        Expr::Number(_) | Expr::Unary { .. } | Expr::Binary { .. } => {
            Ok(Side::empty(targets.alloc, Some(refuse_operator(targets.scope, expr))))
        }
    }
}
