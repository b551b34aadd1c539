//! Expressions and their copies.

use crate::expression_outlines::put_expr;
use crate::faults::put_refusal;
use crate::sources::{framed, module_of};
use abel_tree::{Expr, Module, Section, Stmt};
use std::alloc::Global;
use test_rows::Found;

/// The value that the first equation of a module assigns.
fn value_of(module: &Module) -> Option<&Expr> {
    match module.sections.as_slice() {
        [Section::Equations(list), ..] => match list.as_slice() {
            [Stmt::Assign(assign), ..] => Some(&assign.value),
            _ => None,
        },
        _ => None,
    }
}

/// Puts an expression and, of parentheses, the place.
fn put_placed(found: &mut Found, expr: &Expr) {
    put_expr(found, expr);
    if let Expr::Paren { place, .. } = expr {
        put_refusal(found, " at", *place);
    }
}

/// The copy of the expression that a source assigns.
pub fn copied(alloc: Global, expression: &[u8]) -> Found {
    let source = framed(alloc, "module m equations y = ", expression, "; end");
    let mut found = Found::new(alloc);
    let Some(module) = module_of(alloc, source.bytes(), &mut found) else {
        return found;
    };
    if let Some(expr) = value_of(&module) {
        match expr.copy(alloc) {
            Ok(copy) => put_placed(&mut found, &copy),
            Err(_) => found.text("no memory"),
        }
    }
    found
}
