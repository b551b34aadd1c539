//! The check of whole expressions.

ghost use Rattle.std.specs.Prelude.{◌≡◌, ℕ, List, [], ◌++◌, map, IfOk, OnOk};
ghost use Rattle.set_expr.specs.Prelude.{Place, Entry, members_of, view, view_member};
ghost use Rattle.name_uses.specs.RangeParts.{name_items};
ghost use Rattle.set_expr.specs.{found_of, found_before, range_found, names_found, IsKnown, SumsUp, AreSummedUp, Found};

use crate::checked::Checked;
use crate::checking::{Members, check_special, checked_name, plain};
use crate::known::KnownNames;
use crate::rules::{check_both, check_under};
use crate::shaped::Shape;
use abel_tree::{Expr, Member};
use name_uses::range_list;
use pld_base::{OutOfMemory, Place};
use std::alloc::Global;

/// One member more of the set at this place.
#[cycle(checking)]
fn check_member(
    alloc: Global,
    known: &KnownNames,
    member: &Member,
    place: Place,
    before: Members,
) -> Result<Members, OutOfMemory>
    ensures { IfOk result (λ m. (es : List Entry) (fs : List Found) → IsKnown es known.now → AreSummedUp place before fs → AreSummedUp place m (fs ++ found_before (names_found es) (view_member member.now) [])) }
{
    match member {
        Member::One(expr) => {
            let part = check_expr(alloc, known, expr)?;
            Ok(before.with(place, part))
        }
        Member::Span { first, last } => {
            let names = range_list(alloc, first.text.bytes(), last.text.bytes())?;
            let mut members = before;
            for name in names.as_slice() {
                members = members.with(place, checked_name(known, name.as_slice(), first.place));
            }
            Ok(members)
        }
    }
}

/// An expression, by what is found of its parts.
#[cycle(checking)]
fn check_level(alloc: Global, known: &KnownNames, expr: &Expr) -> Result<Checked, OutOfMemory>
    ensures { IfOk result (λ c. (es : List Entry) → IsKnown es known.now → SumsUp c (found_of (names_found es) (view expr.now))) }
{
    match expr {
        Expr::Number(number) => Ok(plain(Shape::Number(number.value))),
        Expr::Special { letter, place } => Ok(check_special(*letter, *place)),
        Expr::Name { word, extension: _ } => Ok(checked_name(known, word.text.bytes(), word.place)),
        Expr::Set {
            place,
            members,
            extension: _,
        } => {
            let mut parts = Members::new();
            for member in members.as_slice() {
                parts = check_member(alloc, known, member, *place, parts)?;
            }
            Ok(parts.whole(*place))
        }
        Expr::Paren { place: _, inner } => check_expr(alloc, known, inner.get()),
        Expr::Unary {
            sign,
            place: _,
            inner,
        } => {
            let inner = check_expr(alloc, known, inner.get())?;
            Ok(check_under(*sign, inner))
        }
        Expr::Binary {
            sign,
            place,
            left,
            right,
        } => {
            let left = check_expr(alloc, known, left.get())?;
            let right = check_expr(alloc, known, right.get())?;
            Ok(check_both(*sign, *place, left, right))
        }
    }
}

/// An expression; goes down the left side of operators in a loop.
#[cycle(checking)]
pub(crate) fn check_expr(
    alloc: Global,
    known: &KnownNames,
    expr: &Expr,
) -> Result<Checked, OutOfMemory>
    ensures { IfOk result (λ c. (es : List Entry) → IsKnown es known.now → SumsUp c (found_of (names_found es) (view expr.now))) }
{
    let mut links = Vec::new(alloc);
    let mut first = expr;
    'down: while let Expr::Binary {
        sign,
        place,
        left,
        right,
    } = first
    {
        links.push((*sign, *place, right.get()))?;
        first = left.get();
    }
    let mut found = check_level(alloc, known, first)?;
    'up: while let Some((sign, place, right)) = links.pop() {
        let other = check_expr(alloc, known, right)?;
        found = check_both(sign, place, found, other);
    }
    Ok(found)
}
