//! What is known of the names of a source, learnt from their declarations.

ghost use Rattle.std.specs.Prelude.{◌≡◌, List, IfOk};
ghost use Rattle.set_expr.specs.Prelude.{Entry, entries_of, view_meaning, view};
ghost use Rattle.set_expr.specs.{found_kind, is_pulse, is_pulse_kind, names_found, IsKnown, SumsUp};

use crate::checked::Checked;
use crate::checking::plain;
use crate::known::KnownNames;
use crate::known_name::KnownName;
use crate::shaped::Shape;
use crate::walking::check_expr;
use abel_tree::{Expr, Meaning, Names};
use pld_base::OutOfMemory;
use std::alloc::Global;

/// What is known of all names, once for all expressions of a source. Each constant is checked once.
pub(crate) fn known_names(alloc: Global, names: &Names) -> Result<KnownNames, OutOfMemory>
    ensures { IfOk result (λ known. IsKnown (entries_of names.now) known) }
{
    let mut known = KnownNames::new(alloc);
    for (number, declared) in names.list.as_slice().iter().enumerate() {
        let (checked, pulse) = learn(alloc, &known, &declared.meaning)?;
        let name = KnownName {
            number,
            checked,
            pulse,
        };
        known.keep(alloc, declared.name.bytes(), name)?;
    }
    Ok(known)
}

/// What a declaration amounts to by the names before it, and whether the name represents `.C.` or
/// `.Z.`.
fn learn(
    alloc: Global,
    known: &KnownNames,
    meaning: &Meaning,
) -> Result<(Checked, bool), OutOfMemory>
    ensures checked { IfOk result (λ r. (es : List Entry) → IsKnown es known.now → SumsUp r.0 (found_kind (names_found es) (view_meaning meaning.now))) }
    ensures pulse { IfOk result (λ r. r.1 ≡ is_pulse_kind (view_meaning meaning.now)) }
{
    match meaning {
        Meaning::Pin { pin: _, negated: _ } => Ok((plain(Shape::Single), false)),
        Meaning::Node(_) => Ok((plain(Shape::Single), false)),
        Meaning::DeviceName => Ok((plain(Shape::Number(0)), false)),
        Meaning::Constant(expr) => {
            if is_pulse(expr) {
                return Ok((plain(Shape::Number(0)), true));
            }
            Ok((check_expr(alloc, known, expr)?, false))
        }
    }
}

/// Whether an expression is `.C.` or `.Z.` itself, up to parentheses.
fn is_pulse(expr: &Expr) -> bool
    ensures { result ≡ is_pulse (view expr.now) }
{
    match expr {
        Expr::Special { letter, place: _ } => *letter != b'X',
        Expr::Paren { place: _, inner } => is_pulse(inner.get()),
        _ => false,
    }
}
