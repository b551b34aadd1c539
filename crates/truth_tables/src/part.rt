//! What a part of a header or of an entry represents, through the names of constants.

ghost use Rattle.std.specs.Prelude.{Bool, IfOk};
ghost use Rattle.truth_tables.specs.Prelude.{view_meaning, view, Context, term_of, term_named, term_meant, extended_if, constant_of, entries_of, names_found};
ghost use Rattle.set_expr.specs.Shapes.{HasShape};
ghost use Rattle.truth_tables.specs.{IsOver, IsPart, IsStand, IsOfKind, LeadsBack, IsUnrefused, IsClearName, IsClear, IsClearPart, IsClearStand};

use abel_tree::{Expr, Extension, Meaning, Member};
use pld_base::OutOfMemory;
use set_expr::{Scope, Shape};
use std::alloc::Global;

/// A set with what extends its members, a signal, a number, a special by its letter, or an operator. A set and an operator
/// are with their expression, of which the shape is asked.
#[derive(Clone, Copy)]
pub(crate) enum Part<'a> {
    Set(&'a Expr, &'a [Member], Option<Extension>),
    Signal(usize, Option<Extension>),
    Number(u32),
    Special(u8),
    Operator(&'a Expr),
}

/// A part of a header, and what represents it in an entry.
#[derive(Clone, Copy)]
pub(crate) struct Pair<'a> {
    pub header: Part<'a>,
    pub given: Part<'a>,
}

/// What a name represents: an expression, or what it is.
#[derive(Clone, Copy)]
pub(crate) enum Stand<'a> {
    Constant(&'a Expr),
    Part(Part<'a>),
}

/// What a declared name of this number represents.
fn meaning_stand(meaning: &Meaning, number: usize, extension: Option<Extension>) -> Stand<'_>
    ensures stand { (d : Context)
        → IsStand d extension result (extended_if extension (term_meant d.known number (view_meaning meaning.now))) }
    ensures kind { IsOfKind result (view_meaning meaning.now) }
{
    match meaning {
        Meaning::Pin { pin: _, negated: _ } => Stand::Part(Part::Signal(number, extension)),
        Meaning::Node(_) => Stand::Part(Part::Signal(number, extension)),
        Meaning::Constant(expr) => Stand::Constant(expr),
        Meaning::DeviceName => Stand::Part(Part::Number(0)),
    }
}

/// What the name with this text represents; one that isn't declared is a number.
pub(crate) fn stand_of<'a>(
    scope: &Scope<'a>,
    text: &[u8],
    extension: Option<Extension>,
) -> Stand<'a>
    ensures stand { (d : Context) → IsOver scope.now d
        → IsStand d extension result (extended_if extension (term_named d.known text.now)) }
    ensures back { LeadsBack scope.now text.now result }
    ensures clear { (b : Bool) → IsClearName (names_found (entries_of scope.now)) text.now → IsClearStand b (names_found (entries_of scope.now)) result }
{
    scope.are_in_order();
    match scope.get(text) {
        None => Stand::Part(Part::Number(0)),
        Some(name) => {
            let declared = &scope.list()[name.number];
            meaning_stand(&declared.meaning, name.number, extension)
        }
    }
}

/// The shape of an expression of which nothing is refused.
pub(crate) fn shape_of(alloc: Global, scope: &Scope<'_>, expr: &Expr) -> Result<Shape, OutOfMemory>
    requires { IsUnrefused (names_found (entries_of scope.now)) (view expr.now) }
    ensures { IfOk result (λ s. (d : Context) → IsOver scope.now d → HasShape s (constant_of d (term_of d.known (view expr.now)))) }
{
    let found = scope.check(alloc, expr)?;
    match found.shape {
        Some(shape) => Ok(shape),
        None => unreachable!(),
    }
}

/// The part that an expression is under an extension, if there is one. Parentheses and names of constants are followed in a
/// loop.
pub(crate) fn part_of<'a>(scope: &Scope<'a>, expr: &'a Expr, outer: Option<Extension>) -> Part<'a>
    ensures part { (d : Context) → IsOver scope.now d
        → IsPart d result (extended_if outer (term_of d.known (view expr.now))) }
    ensures clear { (b : Bool) → IsClear b (names_found (entries_of scope.now)) (view expr.now)
        → IsClearPart b (names_found (entries_of scope.now)) result }
{
    let mut at = expr;
    let mut extension = outer;
    loop {
        match at {
            Expr::Number(number) => return Part::Number(number.value),
            Expr::Special { letter, .. } => return Part::Special(*letter),
            Expr::Name {
                word,
                extension: own,
            } => {
                extension = Extension::innermost(*own, extension);
                match stand_of(scope, word.text.bytes(), extension) {
                    Stand::Constant(value) => at = value,
                    Stand::Part(part) => return part,
                }
            }
            Expr::Set {
                members,
                extension: own,
                ..
            } => {
                let extension = Extension::innermost(*own, extension);
                return Part::Set(at, members.as_slice(), extension);
            }
            Expr::Paren { inner, .. } => at = inner.get(),
            Expr::Unary { .. } => return Part::Operator(at),
            Expr::Binary { .. } => return Part::Operator(at),
        }
    }
}

/// The part that the name with this text is under an extension, if there is one.
pub(crate) fn named_part<'a>(scope: &Scope<'a>, text: &[u8], outer: Option<Extension>) -> Part<'a>
    ensures part { (d : Context) → IsOver scope.now d
        → IsPart d result (extended_if outer (term_named d.known text.now)) }
    ensures clear { (b : Bool) → IsClearName (names_found (entries_of scope.now)) text.now
        → IsClearPart b (names_found (entries_of scope.now)) result }
{
    match stand_of(scope, text, outer) {
        Stand::Constant(expr) => part_of(scope, expr, outer),
        Stand::Part(part) => part,
    }
}
