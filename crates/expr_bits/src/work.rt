//! What is left to build, and what names are to be built as.

ghost use Rattle.std.specs.Prelude.{◌≡◌, ◌<◌, ◌≤◌, List, take};
ghost use Rattle.expr_bits.specs.Prelude.{Entry, entries_of, innermost, view_meaning, extended_if, known_of, term_meant, term_named};
ghost use Rattle.expr_bits.specs.{ComesTo, named_term, kind_weight, name_weight, named_weight, work_weight};

use abel_tree::{Binary, Expr, Extension, Meaning, Member, Unary};
use set_expr::Scope;

/// A step over a stack of values: what it puts on top, of the values that it takes from there.
#[derive(Clone, Copy, PartialEq, Eq)]
pub(crate) enum Step {
    /// A number.
    Number(u32),
    /// `.X.`
    Unknown,
    /// What a signal's name reads, or what its extension names.
    Read(usize, Option<Extension>),
    /// `!` or `-` before a value.
    Under(Unary),
    /// An operator over two values.
    Both(Binary),
    /// A set without members.
    Empty,
    /// A value as the member before those of the set below it.
    Member,
}

/// What an expression takes from outside: an extension for each signal that has none, and how many of the names it is
/// over.
#[derive(Clone, Copy)]
pub(crate) struct Outer {
    pub extension: Option<Extension>,
    pub count: usize,
}

impl Outer {
    /// What a name or a set with an extension of its own takes from outside.
    pub(crate) fn inside(self, own: Option<Extension>) -> Outer
        ensures { result ≡ record { extension = innermost own self.extension; count = self.count } }
    {
        Outer {
            extension: Extension::innermost(own, self.extension),
            count: self.count,
        }
    }
}

/// An expression or the members of a set with what they take from outside, the name of a number with an extension, or a
/// step.
#[derive(Clone, Copy)]
pub(crate) enum Work<'a> {
    Whole(&'a Expr, Outer),
    Members(&'a [Member], Outer),
    Named(usize, Option<Extension>),
    Do(Step),
}

/// What the name with this text is built as; one that isn't among the first names is a number.
pub(crate) fn name_work<'a>(scope: &Scope<'a>, text: &[u8], outer: Outer) -> Work<'a>
    ensures comes { ComesTo (entries_of scope.now) result (extended_if outer.extension
        (term_named (known_of (take outer.count (entries_of scope.now))) text.now)) }
    ensures weight { work_weight (entries_of scope.now) result ≤ name_weight (entries_of scope.now) outer.count text.now }
{
    let Some(name) = scope.get(text) else {
        return Work::Do(Step::Number(0));
    };
    if name.number >= outer.count {
        Work::Do(Step::Number(0))
    } else {
        Work::Named(name.number, outer.extension)
    }
}

/// What a meaning is built as, of the name with this number.
fn meant_work<'a>(meaning: &'a Meaning, number: usize, extension: Option<Extension>) -> Work<'a>
    ensures comes { (es : List Entry) → ComesTo es result (extended_if extension (term_meant (known_of (take number es)) number (view_meaning meaning.now))) }
    ensures weight { (es : List Entry) → work_weight es result ≡ kind_weight (name_weight es number) (view_meaning meaning.now) }
{
    match meaning {
        Meaning::Pin { pin: _, negated: _ } => Work::Do(Step::Read(number, extension)),
        Meaning::Node(_) => Work::Do(Step::Read(number, extension)),
        Meaning::Constant(expr) => Work::Whole(
            expr,
            Outer {
                extension,
                count: number,
            },
        ),
        Meaning::DeviceName => Work::Do(Step::Number(0)),
    }
}

/// What the name with this number is built as.
pub(crate) fn declared_work<'a>(
    scope: &Scope<'a>,
    number: usize,
    extension: Option<Extension>,
) -> Work<'a>
    ensures comes { ComesTo (entries_of scope.now) result (named_term (entries_of scope.now) number extension) }
    ensures weight { work_weight (entries_of scope.now) result < named_weight (entries_of scope.now) number }
{
    match scope.list().get(number) {
        Some(declared) => meant_work(&declared.meaning, number, extension),
        None => Work::Do(Step::Number(0)),
    }
}
