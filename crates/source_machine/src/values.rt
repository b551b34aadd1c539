//! Values of functions and controls at a point.

ghost use Rattle.std.specs.Prelude.{◌≡◌, List, length, unwrap_or};
ghost use Rattle.source_machine.specs.Prelude.{levels_of, arena, Formula, Const, formula_value, value_with_any_0, as_named, function_at, plain_control, plain_function, plain_wanted, IsControlIn, IsFunctionIn};

use bit_expr::{CellWanted, Control, Exprs, Function};
use pld_base::Point;

/// The value of a function with any as 0.
pub(crate) fn value(exprs: &Exprs, function: Function, at: &Point) -> bool
    requires { IsFunctionIn (length (arena exprs.now)) function }
    ensures { result ≡ value_with_any_0 (function_at (levels_of at.now) (plain_function (arena exprs.now) function)) }
{
    exprs.eval(function.one, at) != function.complement
}

/// The value of a control that may be there, else the given one.
pub(crate) fn control_value(
    exprs: &Exprs,
    control: Option<Control>,
    absent: bool,
    at: &Point,
) -> bool
    requires { IsControlIn (length (arena exprs.now)) control }
    ensures { result ≡ formula_value (levels_of at.now)
        (unwrap_or (plain_control (arena exprs.now) control) (Const absent)) }
{
    match control {
        None => absent,
        Some(control) => exprs.eval(control.bit, at),
    }
}

/// The level of the pin, or the next Q, for a value of which the function speaks; and the other way round.
pub(crate) fn as_named(wanted: &CellWanted, value: bool) -> bool
    ensures { (fs : List Formula) → result ≡ as_named (plain_wanted fs wanted.now) value }
{
    if wanted.raw {
        return value;
    }
    let turned = wanted.registered && !wanted.buffer;
    value != (turned != wanted.negated)
}
