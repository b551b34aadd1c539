//! State diagrams.

use crate::expressions::Expr;
use crate::statements::Stmt;
use pld_base::{Boxed, ListOf, Place};

/// The target of a transition, with the statements after WITH. The place is that of the value's first
/// token.
#[derive(Drop)]
pub struct Goal {
    pub place: Place,
    pub value: Expr,
    pub with: Option<ListOf<Stmt>>,
}

/// `IF condition THEN then [[;] ELSE otherwise]`
#[cycle(arm)]
#[derive(Drop)]
pub struct If {
    pub place: Place,
    pub condition: Expr,
    pub then: Boxed<Arm>,
    pub otherwise: Option<Boxed<Arm>>,
}

/// `condition : result ;`
#[cycle(arm)]
#[derive(Drop)]
pub struct CaseArm {
    pub condition: Expr,
    pub colon: Place,
    pub result: Arm,
}

/// `CASE {arms} ENDCASE`
#[cycle(arm)]
#[derive(Drop)]
pub struct Case {
    pub place: Place,
    pub arms: ListOf<CaseArm>,
}

/// A transition, or a branch of one.
#[cycle(arm)]
#[derive(Drop)]
pub enum Arm {
    Goal(Goal),
    If(If),
    Case(Case),
}

/// `STATE value : {statements} {transitions}`
#[derive(Drop)]
pub struct State {
    pub place: Place,
    pub value: Expr,
    pub statements: ListOf<Stmt>,
    pub transitions: ListOf<Arm>,
}

/// STATE_DIAGRAM with its registers and states.
#[derive(Drop)]
pub struct Diagram {
    pub place: Place,
    pub registers: Expr,
    pub states: ListOf<State>,
}
