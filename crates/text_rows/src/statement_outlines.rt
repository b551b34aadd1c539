//! Statements and transitions as short texts.

use crate::expression_outlines::put_expr;
use abel_tree::{Arm, Sign, Stmt};
use test_rows::Found;

/// The choice of don't-cares.
pub fn put_dont_care(found: &mut Found, on: bool) {
    found.text(if on { "dc " } else { "on " })
}

/// The sign of an assignment.
fn put_sign(found: &mut Found, sign: Sign) {
    found.text(match sign {
        Sign::Equal => "=",
        Sign::Clocked => ":=",
        Sign::Any => "?=",
        Sign::ClockedAny => "?:=",
    })
}

/// A statement.
pub fn put_stmt(found: &mut Found, stmt: &Stmt) {
    match stmt {
        Stmt::Assign(assign) => {
            found.text(if assign.complement { "!" } else { "" });
            put_expr(found, &assign.target);
            put_sign(found, assign.sign);
            put_expr(found, &assign.value);
            found.text("; ")
        }
        Stmt::When(when) => {
            found.text("when ");
            put_expr(found, &when.condition);
            found.text("(");
            put_stmt(found, when.then.get());
            found.text(")");
            if let Some(other) = &when.otherwise {
                found.text("else(");
                put_stmt(found, other.get());
                found.text(")");
            }
            found.text(" ")
        }
        Stmt::Group(list) => {
            found.text("{");
            for inner in list.as_slice() {
                put_stmt(found, inner);
            }
            found.text("} ")
        }
        Stmt::DontCare(dc) => put_dont_care(found, dc.on),
    }
}

/// Statements.
pub fn put_stmts(found: &mut Found, list: &[Stmt]) {
    for stmt in list {
        put_stmt(found, stmt);
    }
}

/// A transition.
pub fn put_arm(found: &mut Found, arm: &Arm) {
    match arm {
        Arm::Goal(goal) => {
            found.text("to ");
            put_expr(found, &goal.value);
            if let Some(list) = &goal.with {
                found.text(" with(");
                put_stmts(found, list.as_slice());
                found.text(")");
            }
            found.text(" ")
        }
        Arm::If(branch) => {
            found.text("if ");
            put_expr(found, &branch.condition);
            found.text("(");
            put_arm(found, branch.then.get());
            found.text(")");
            if let Some(other) = &branch.otherwise {
                found.text("else(");
                put_arm(found, other.get());
                found.text(")");
            }
            found.text(" ")
        }
        Arm::Case(case) => {
            found.text("case(");
            for choice in case.arms.as_slice() {
                put_expr(found, &choice.condition);
                found.text(":");
                put_arm(found, &choice.result);
            }
            found.text(") ")
        }
    }
}
