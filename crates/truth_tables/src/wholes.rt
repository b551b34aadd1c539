//! Entries that meet a part of a header as a whole.

ghost use Rattle.std.specs.Prelude.{◌≡◌, ◌++◌, ℕ, true, false, map, replicate, IfOk, OnOk};
ghost use Rattle.truth_tables.specs.Prelude.{view, Context, digits_low_first, part_marks, part_width, Term, special_term, term_of, entries_of, names_found};
ghost use Rattle.abel_meaning.specs.Rows as meant;
ghost use Rattle.truth_tables.specs.{view_mark, IsOver, both_sets, IsPut, IsPart, IsUnrefused, IsClearPart, IsClearPair};

use crate::mark::Mark;
use crate::part::{Pair, Part, shape_of};
use abel_tree::Expr;
use pld_base::OutOfMemory;
use set_expr::{Scope, Shape};
use std::alloc::Global;

/// How many positions an expression has as a part.
fn expr_width(alloc: Global, scope: &Scope<'_>, expr: &Expr) -> Result<u8, OutOfMemory>
    requires { IsUnrefused (names_found (entries_of scope.now)) (view expr.now) }
    ensures { IfOk result (λ w. (d : Context) → IsOver scope.now d → w ≡ part_width d (term_of d.known (view expr.now))) }
{
    match shape_of(alloc, scope, expr)? {
        Shape::Number(_) => Ok(1),
        Shape::Single => Ok(1),
        Shape::Set(width) => Ok(width),
    }
}

/// How many positions a part has.
fn width_of(alloc: Global, scope: &Scope<'_>, part: Part<'_>) -> Result<u8, OutOfMemory>
    requires { IsClearPart true (names_found (entries_of scope.now)) part }
    ensures { IfOk result (λ w. (d : Context) (t : Term) → IsOver scope.now d → IsPart d part.entry t → w ≡ part_width d t) }
{
    match part {
        Part::Set(expr, _, _) => expr_width(alloc, scope, expr),
        Part::Operator(expr) => expr_width(alloc, scope, expr),
        Part::Signal(_, _) => Ok(1),
        Part::Number(_) => Ok(1),
        Part::Special(_) => Ok(1),
    }
}

/// The same mark at so many positions.
fn push_same(marks: &mut Vec<Mark>, width: u8, mark: Mark) -> Result<(), OutOfMemory>
    ensures { OnOk result (marks.new.items ≡ marks.old.items ++ replicate width mark) }
{
    for _position in 0..width {
        marks.push(mark)?;
    }
    Ok(())
}

/// The bits of a number in so many positions, the lowest first.
fn push_levels(marks: &mut Vec<Mark>, width: u8, number: u32) -> Result<(), OutOfMemory>
    ensures { OnOk result (map view_mark marks.new.items ≡ map view_mark marks.old.items ++ map meant.Level (digits_low_first width number)) }
{
    let mut rest = number;
    for _position in 0..width {
        marks.push(Mark::Level(rest % 2 == 1))?;
        rest /= 2;
    }
    Ok(())
}

/// The mark of a special.
fn special_mark(letter: u8) -> Mark
    ensures { (d : Context) (w : ℕ) → part_marks d w (special_term letter) ≡ replicate w (view_mark result) }
{
    match letter {
        b'X' => Mark::Unknown,
        b'C' => Mark::Pulsed,
        _ => Mark::Released,
    }
}

/// The marks of an entry that meets a part of a header as a whole, from the last position on; false for one that
/// doesn't.
pub(crate) fn put_whole(
    alloc: Global,
    scope: &Scope<'_>,
    pair: Pair<'_>,
    marks: &mut Vec<Mark>,
) -> Result<bool, OutOfMemory>
    requires { IsClearPair (names_found (entries_of scope.now)) pair }
    ensures { IfOk result (λ b. (d : Context) (h e : Term) → IsOver scope.now d
        → IsPart d pair.entry.header h → IsPart d pair.entry.given e → both_sets h e ≡ false
        → IsPut d h e b marks.old.items marks.new.items) }
{
    let width = width_of(alloc, scope, pair.header)?;
    match pair.given {
        Part::Number(number) => {
            push_levels(marks, width, number)?;
            Ok(true)
        }
        Part::Special(letter) => {
            push_same(marks, width, special_mark(letter))?;
            Ok(true)
        }
        Part::Operator(expr) => match shape_of(alloc, scope, expr)? {
            Shape::Number(number) => {
                push_levels(marks, width, number)?;
                Ok(true)
            }
            _ => Ok(false),
        },
        Part::Set(_, _, _) => Ok(false),
        Part::Signal(_, _) => Ok(false),
    }
}
