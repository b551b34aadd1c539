//! What operators make of shapes, and what they refuse.

ghost use Rattle.std.specs.Prelude.{◌≡◌, [], List, Option, Some};
ghost use Rattle.set_expr.specs.Prelude.{first_refusal, Value, is_relation, binary_value, unary_value};
ghost use Rattle.set_expr.specs.declared.fault.SectionFault.{SectionFault as Fault};
ghost use Rattle.set_expr.specs.{SumsUp, HasShapeIf, Found, specials_refused, unless_refused, unequal, unequal_unspread, not_numbers, no_divisor, operands_refused, value_of_both, found_both, found_under, value_or_none, meant, said, section_order};

use crate::checked::Checked;
use crate::fault::SectionFault;
use crate::numbers::{is_relation, number_of, number_under};
use crate::shaped::Shape;
use abel_tree::{Binary, Unary, earlier};
use pld_base::Place;

/// The shape of what an operator gives, if both operands have one.
fn shape_of_both(sign: Binary, left: Option<Shape>, right: Option<Shape>) -> Option<Shape>
    ensures { (v u : Value) → HasShapeIf left (Some v) → HasShapeIf right (Some u) → HasShapeIf result (Some (binary_value sign v u)) }
{
    let (Some(left), Some(right)) = (left, right) else {
        return None;
    };
    if is_relation(sign) {
        return Some(Shape::Single);
    }
    match (left, right) {
        (Shape::Number(m), Shape::Number(n)) => Some(Shape::Number(number_of(sign, m, n))),
        (Shape::Number(_), Shape::Single) => Some(Shape::Single),
        (Shape::Number(_), Shape::Set(width)) => Some(Shape::Set(width)),
        (Shape::Single, Shape::Number(_)) => Some(Shape::Single),
        (Shape::Single, Shape::Single) => Some(Shape::Single),
        (Shape::Single, Shape::Set(width)) => Some(Shape::Set(width)),
        (Shape::Set(width), _) => Some(Shape::Set(width)),
    }
}

/// The shape of a complement, or of two's complement, of what has one.
fn shape_under(sign: Unary, shape: Option<Shape>) -> Option<Shape>
    ensures { (v : Value) → HasShapeIf shape (Some v) → HasShapeIf result (Some (unary_value sign v)) }
{
    match shape {
        Some(Shape::Number(n)) => Some(Shape::Number(number_under(sign, n))),
        _ => shape,
    }
}

/// Sets of unequal width.
fn unequal_widths(place: Place, left: Shape, right: Shape) -> Option<SectionFault>
    ensures { result ≡ first_refusal section_order (unequal place (meant left) (meant right)) }
{
    match (left, right) {
        (Shape::Set(v), Shape::Set(w)) => (v != w).then_some(SectionFault::BadWidth(place)),
        _ => None,
    }
}

/// And one bit beside a set of several.
fn unspread_widths(place: Place, left: Shape, right: Shape) -> Option<SectionFault>
    ensures { result ≡ first_refusal section_order (unequal_unspread place (meant left) (meant right)) }
{
    match (left, right) {
        (Shape::Single, Shape::Set(w)) | (Shape::Set(w), Shape::Single) => {
            (w != 1).then_some(SectionFault::BadWidth(place))
        }
        _ => unequal_widths(place, left, right),
    }
}

/// What isn't two numbers.
fn no_numbers(place: Place, left: Shape, right: Shape) -> Option<SectionFault>
    ensures { result ≡ first_refusal section_order (not_numbers place (meant left) (meant right)) }
{
    match (left, right) {
        (Shape::Number(_), Shape::Number(_)) => None,
        _ => Some(SectionFault::NotConstant(place)),
    }
}

/// And a division by 0.
fn bad_division(place: Place, left: Shape, right: Shape) -> Option<SectionFault>
    ensures { result ≡ first_refusal section_order (no_divisor place (meant left) (meant right) (said right)) }
{
    match (left, right) {
        (Shape::Number(_), Shape::Number(n)) => {
            (n == 0).then_some(SectionFault::ZeroDivisor(place))
        }
        _ => Some(SectionFault::NotConstant(place)),
    }
}

/// What an operator refuses of operands that have a shape.
fn operands_fault(
    sign: Binary,
    place: Place,
    left: Option<Shape>,
    right: Option<Shape>,
) -> Option<SectionFault>
    ensures { (v u : Option Value) → HasShapeIf left v → HasShapeIf right u → result ≡ first_refusal section_order (operands_refused sign place v u) }
{
    let (Some(left), Some(right)) = (left, right) else {
        return None;
    };
    match sign {
        Binary::And | Binary::Or | Binary::Xor | Binary::Xnor => {
            unequal_widths(place, left, right)
        }
        Binary::Times | Binary::ShiftLeft | Binary::ShiftRight => no_numbers(place, left, right),
        Binary::Over | Binary::Rest => bad_division(place, left, right),
        _ => unspread_widths(place, left, right),
    }
}

/// The X positions that an operator refuses.
#[tactic(auto, using(crate::proofs::SummedUp::first_both))]
fn special_of_both(
    sign: Binary,
    left: Option<SectionFault>,
    right: Option<SectionFault>,
) -> Option<SectionFault>
    ensures { (xs ys : List Fault) → left ≡ first_refusal section_order xs → right ≡ first_refusal section_order ys → result ≡ first_refusal section_order (specials_refused (is_relation sign) xs ys) }
{
    if is_relation(sign) {
        None
    } else {
        earlier(left, right)
    }
}

/// What is refused has no shape and no position.
pub(crate) fn settled(
    shape: Option<Shape>,
    special: Option<SectionFault>,
    fault: Option<SectionFault>,
) -> Checked
    ensures { (rs xs : List Fault) (v : Value) → fault ≡ first_refusal section_order rs → special ≡ first_refusal section_order xs → (rs ≡ [] → HasShapeIf shape (Some v)) → SumsUp result (unless_refused rs xs v) }
{
    match fault {
        None => Checked {
            shape,
            special,
            fault: None,
        },
        Some(fault) => Checked {
            shape: None,
            special: None,
            fault: Some(fault),
        },
    }
}

/// Two operands under an operator.
pub(crate) fn check_both(sign: Binary, place: Place, left: Checked, right: Checked) -> Checked
    ensures { (f g : Found) → SumsUp left f → SumsUp right g → SumsUp result (found_both sign place f g) }
{
    let operands = earlier(left.fault, right.fault);
    let special = special_of_both(sign, left.special, right.special);
    let own = earlier(
        special,
        operands_fault(sign, place, left.shape, right.shape),
    );
    let shape = shape_of_both(sign, left.shape, right.shape);
    settled(shape, None, earlier(operands, own))
}

/// An operand under `!` or `-`.
pub(crate) fn check_under(sign: Unary, inner: Checked) -> Checked
    ensures { (f : Found) → SumsUp inner f → SumsUp result (found_under sign f) }
{
    let shape = shape_under(sign, inner.shape);
    settled(shape, None, earlier(inner.fault, inner.special))
}
