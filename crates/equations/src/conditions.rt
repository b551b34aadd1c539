//! What is refused of values and conditions.

ghost use Rattle.std.specs.Prelude.{◌≡◌, Option, IfOk};
ghost use Rattle.abel_tree.specs.Assigned as assigned;
ghost use Rattle.equations.specs.Prelude.{entries_of, first_refusal, view, Context, view_gives, Found, section_order, value_width, value_refused};
ghost use Rattle.abel_meaning.specs.Numbers.{Value};
ghost use Rattle.abel_meaning.specs.Statements as given;
ghost use Rattle.set_expr.specs.KnownNames.{HasShapeIf, SumsUp};
ghost use Rattle.equations.specs.{condition_refused};

use abel_tree::{Expr, Sign, earlier};
use pld_base::{OutOfMemory, Place};
use set_expr::{Checked, Gives, Scope, SectionFault, Shape};
use std::alloc::Global;

/// Whether the sign assigns on the clock.
pub(crate) fn is_clocked(sign: Sign) -> bool
    ensures { result ≡ assigned.is_clocked sign }
{
    matches!(sign, Sign::Clocked | Sign::ClockedAny)
}

/// What the sign gives if the value is 1.
pub(crate) fn sign_gives(sign: Sign) -> Gives
    ensures { view_gives result ≡ given.sign_gives sign }
{
    match sign {
        Sign::Equal | Sign::Clocked => Gives::One,
        Sign::Any | Sign::ClockedAny => Gives::Any,
    }
}

/// Refused if a set meets another number of signals.
fn refuse_width(place: Place, width: usize, shape: Option<Shape>) -> Option<SectionFault>
    ensures { (v : Option Value) → HasShapeIf shape v → result ≡ first_refusal section_order (value_width place width v) }
{
    match shape {
        Some(Shape::Set(found)) if found as usize != width => Some(SectionFault::BadWidth(place)),
        _ => None,
    }
}

/// What is refused of a value that meets so many signals.
#[tactic(auto, using(abel_tree::proofs::FirstRefusals::first_append))]
pub fn refuse_value(place: Place, width: usize, value: Checked) -> Option<SectionFault>
    ensures { (f : Found) → SumsUp value f → result ≡ first_refusal section_order (value_refused place width f) }
{
    let width = refuse_width(place, width, value.shape);
    earlier(value.fault, earlier(value.special, width))
}

/// What is refused of a condition at the place of its WHEN.
pub fn check_condition(
    alloc: Global,
    scope: &Scope<'_>,
    place: Place,
    condition: &Expr,
) -> Result<Option<SectionFault>, OutOfMemory>
    ensures { IfOk result (λ f. (d : Context) → d.names ≡ entries_of scope.now → f ≡ first_refusal section_order (condition_refused d place (view condition.now))) }
{
    let value = scope.check(alloc, condition)?;
    Ok(refuse_value(place, 1, value))
}
