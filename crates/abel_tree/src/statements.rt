//! Statements.

use crate::expressions::Expr;
use crate::words::{DontCare, Sign};
use pld_base::{Boxed, ListOf, Place};

/// `[!] target sign value ;`. The target is a `Name` or a `Set`.
#[derive(Drop)]
pub struct Assign {
    pub place: Place,
    pub complement: bool,
    pub target: Expr,
    pub sign: Sign,
    pub sign_place: Place,
    pub value: Expr,
}

/// `WHEN condition THEN then [ELSE otherwise]`
#[cycle(stmt)]
#[derive(Drop)]
pub struct When {
    pub place: Place,
    pub condition: Expr,
    pub then: Boxed<Stmt>,
    pub otherwise: Option<Boxed<Stmt>>,
}

/// A statement; a group is between braces.
#[cycle(stmt)]
#[derive(Drop)]
pub enum Stmt {
    Assign(Assign),
    When(When),
    Group(ListOf<Stmt>),
    DontCare(DontCare),
}
