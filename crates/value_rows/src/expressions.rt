//! Expressions: their shapes, their bits at a point, and their refusals.

ghost use Rattle.std.specs.Prelude.{length};
ghost use Rattle.bit_expr.specs.Arena.{arena};
ghost use Rattle.set_expr.specs.Answer.{AreIn};

use crate::places::{put_blank, put_fault, put_shape};
use crate::sources::{ROW, module_of, source_of};
use abel_tree::{Expr, Module, Section, Stmt};
use bit_expr::{ExprFault, ExprId, Exprs};
use expr_bits::DeviceScope;
use pld_base::{Place, Point};
use pld_device::{Sample, load};
use section_targets::meet;
use set_expr::{Scope, SectionFault, Shape, Shaped};
use std::alloc::Global;
use test_rows::Found;

/// What precedes the text of a row, which is the value of the one equation.
const FRONT: &str = "it pin 9; equations it =";

/// Pins 1 and 3 are high, and node 5 is 1.
const HERE: Point = Point {
    pins: 10,
    q: 0,
    nodes: 32,
};

/// The place of the unit of the value is said to.
const UNIT: Place = Place {
    line: ROW,
    column: 1,
};

/// The value of the one equation.
fn value_of(module: &Module) -> Option<&Expr> {
    match module.sections.as_slice() {
        [Section::Equations(list)] => match list.as_slice() {
            [Stmt::Assign(assign)] => Some(&assign.value),
            _ => None,
        },
        _ => None,
    }
}

/// The shape of an expression, or its first refusal.
fn put_checked(alloc: Global, module: &Module, scope: &Scope<'_>, found: &mut Found) -> Option<()> {
    let expr = value_of(module)?;
    match scope.check(alloc, expr) {
        Ok(checked) => match (checked.fault, checked.shape) {
            (None, Some(shape)) => put_shape(shape, found),
            (fault, _) => put_fault(fault, found),
        },
        Err(_) => return None,
    }
    Some(())
}

/// The first X of an expression, as what it is refused at a place at which it isn't allowed.
fn put_special(alloc: Global, module: &Module, scope: &Scope<'_>, found: &mut Found) -> Option<()> {
    let expr = value_of(module)?;
    match scope.check(alloc, expr) {
        Ok(checked) => put_fault(checked.special, found),
        Err(_) => return None,
    }
    Some(())
}

/// The number at the point, with 0 at X.
fn number_at(exprs: &Exprs, places: &[Option<ExprId>]) -> u32
    requires { AreIn (length (arena exprs.now)) places.now }
{
    let mut number = 0u32;
    for index in 0..places.len().min(32) {
        if let Some(id) = places[index] {
            if exprs.eval(id, &HERE) {
                number |= 1 << index;
            }
        }
    }
    number
}

/// A bit for each position that is X.
fn unknown_at(places: &[Option<ExprId>]) -> u32 {
    let mut unknown = 0u32;
    for index in 0..places.len().min(32) {
        if places[index].is_none() {
            unknown |= 1 << index;
        }
    }
    unknown
}

/// A shape, a number and X positions.
fn put_number(shape: Shape, number: u32, unknown: u32, found: &mut Found) {
    put_shape(shape, found);
    found.text(", ");
    found.number(number as usize);
    found.text(", ");
    found.number(unknown as usize)
}

/// The shape of an expression, its number at the point, and its X positions; or its first refusal.
fn put_value(
    alloc: Global,
    module: &Module,
    names: &DeviceScope<'_, Sample>,
    found: &mut Found,
) -> Option<()> {
    let expr = value_of(module)?;
    let checked = match names.scope().check(alloc, expr) {
        Ok(checked) => checked,
        Err(_) => return None,
    };
    if checked.fault.is_some() {
        put_fault(checked.fault, found);
        return Some(());
    }
    let mut exprs = Exprs::new(alloc);
    match names.bits(alloc, expr, &mut exprs) {
        Ok(shaped) => {
            let number = number_at(&exprs, shaped.places.as_slice());
            let unknown = unknown_at(shaped.places.as_slice());
            put_number(shaped.shape, number, unknown, found)
        }
        Err(ExprFault::NodeLimit) => put_fault(Some(SectionFault::NodeLimit(UNIT)), found),
        Err(ExprFault::OutOfMemory) => return None,
    }
    Some(())
}

/// The bits of an expression that isn't refused.
fn shaped_of(alloc: Global, module: &Module, names: &DeviceScope<'_, Sample>) -> Option<Shaped> {
    let expr = value_of(module)?;
    let checked = match names.scope().check(alloc, expr) {
        Ok(checked) => checked,
        Err(_) => return None,
    };
    if checked.fault.is_some() {
        return None;
    }
    let mut exprs = Exprs::new(alloc);
    names.bits(alloc, expr, &mut exprs).ok()
}

/// The shape of the bits of an expression. They are made and not valued, since they may share their nodes.
fn put_width(
    alloc: Global,
    module: &Module,
    names: &DeviceScope<'_, Sample>,
    found: &mut Found,
) -> Option<()> {
    let shaped = shaped_of(alloc, module, names)?;
    put_shape(shaped.shape, found);
    Some(())
}

/// The ids of an expression in so many positions, the rightmost first.
fn put_met(
    alloc: Global,
    module: &Module,
    names: &DeviceScope<'_, Sample>,
    width: usize,
    found: &mut Found,
) -> Option<()> {
    let shaped = shaped_of(alloc, module, names)?;
    match meet(alloc, &shaped, width) {
        Ok(ids) => {
            for id in ids.as_slice() {
                put_blank(found);
                found.number(id.0);
            }
            Some(())
        }
        Err(_) => None,
    }
}

/// The first refusal of the constants of a row.
fn put_constants(alloc: Global, names: &Found, text: &str, found: &mut Found) -> Option<()> {
    let module = module_of(alloc, names, "", text, "")?;
    let source = source_of::<Sample>(alloc, &load::<Sample, Sample>(&Sample), module)?;
    let scope = Scope::new(alloc, &source.names).ok()?;
    put_fault(scope.check_constants().err(), found);
    Some(())
}

/// Puts what is asked of the expression of a module.
fn put_asked(
    alloc: Global,
    question: &str,
    module: &Module,
    names: &DeviceScope<'_, Sample>,
    found: &mut Found,
) -> Option<()> {
    if let Some(width) = question.strip_prefix("ids in positions, ") {
        return put_met(alloc, module, names, width.parse::<usize>().ok()?, found);
    }
    match question {
        "shapes" => put_checked(alloc, module, names.scope(), found),
        "refusals" => put_checked(alloc, module, names.scope(), found),
        "sums that double" => put_checked(alloc, module, names.scope(), found),
        "first X" => put_special(alloc, module, names.scope(), found),
        "widths of bits" => put_width(alloc, module, names, found),
        _ => put_value(alloc, module, names, found),
    }
}

/// Puts what is asked of an expression.
pub(crate) fn ask(
    alloc: Global,
    question: &str,
    names: &Found,
    text: &str,
    found: &mut Found,
) -> Option<()> {
    if question == "constants" {
        return put_constants(alloc, names, text, found);
    }
    let device = load::<Sample, Sample>(&Sample);
    let module = module_of(alloc, names, FRONT, text, ";")?;
    let source = source_of::<Sample>(alloc, &device, module)?;
    let known = Scope::new(alloc, &source.names).ok()?;
    let names = DeviceScope::new(alloc, &device, known).ok()?;
    put_asked(alloc, question, &source.module, &names, found)
}
