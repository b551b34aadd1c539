//! Whether `@DCSET` is in force after declarations, statements, and the states of a diagram.

ghost use Rattle.std.specs.Prelude.{◌≡◌, [], ◌∷◌, map};
ghost use Rattle.abel_tree.specs.View.{view_arm, view_decl, view_state, view_stmt};
ghost use Rattle.abel_meaning.specs.Designs as designs;
ghost use Rattle.abel_meaning.specs.Directives as directives;
ghost use Rattle.equations.specs.Checks.{view_list};
ghost use Rattle.state_diagrams.specs.Arms.{view_arms, view_choices};

use abel_tree::{Arm, CaseArm, Decl, State, Stmt};

/// After a declaration.
fn after_declaration(on: bool, decl: &Decl) -> bool
    ensures { result ≡ designs.after_declarations on (view_decl decl.now ∷ []) }
{
    match decl {
        Decl::DontCare(directive) => directive.on,
        Decl::Device { .. }
        | Decl::Pins { .. }
        | Decl::Nodes { .. }
        | Decl::Attributes { .. }
        | Decl::Constants { .. }
        | Decl::Options(_) => on,
    }
}

/// Whether it is in force after declarations, if it is `on` before them. Takes no memory.
pub(crate) fn after_declarations(mut on: bool, decls: &[Decl]) -> bool
    ensures { result ≡ designs.after_declarations on (map view_decl decls.now) }
{
    for decl in decls {
        on = after_declaration(on, decl);
    }
    on
}

/// After a statement, with both statements of WHEN.
#[cycle(directives)]
fn after_statement(on: bool, stmt: &Stmt) -> bool
    ensures { result ≡ directives.after_statement on (view_stmt stmt.now) }
{
    match stmt {
        Stmt::Assign(_) => on,
        Stmt::When(when) => {
            let then = after_statement(on, when.then.get());
            match &when.otherwise {
                Some(other) => after_statement(then, other.get()),
                None => then,
            }
        }
        Stmt::Group(group) => after_statements(on, group.as_slice()),
        Stmt::DontCare(directive) => directive.on,
    }
}

/// After statements one after another. Calls go as deep as the nestings of statements.
#[cycle(directives)]
pub(crate) fn after_statements(mut on: bool, stmts: &[Stmt]) -> bool
    ensures { result ≡ directives.after_statements on (view_list stmts.now) }
{
    for stmt in stmts {
        on = after_statement(on, stmt);
    }
    on
}

/// After the arms of CASE.
#[cycle(arms)]
fn after_choices(mut on: bool, arms: &[CaseArm]) -> bool
    ensures { result ≡ directives.after_choices on (view_choices arms.now) }
{
    for arm in arms {
        on = after_arm(on, &arm.result);
    }
    on
}

/// After a transition: the statements after a goal, both branches of IF. Calls go as deep as the nestings of transitions.
#[cycle(arms)]
fn after_arm(on: bool, arm: &Arm) -> bool
    ensures { result ≡ directives.after_branch on (view_arm arm.now) }
{
    match arm {
        Arm::Goal(goal) => match &goal.with {
            None => on,
            Some(list) => after_statements(on, list.as_slice()),
        },
        Arm::If(choice) => {
            let then = after_arm(on, choice.then.get());
            match &choice.otherwise {
                None => then,
                Some(other) => after_arm(then, other.get()),
            }
        }
        Arm::Case(case) => after_choices(on, case.arms.as_slice()),
    }
}

/// After transitions one after another.
fn after_arms(mut on: bool, arms: &[Arm]) -> bool
    ensures { result ≡ directives.after_branches on (view_arms arms.now) }
{
    for arm in arms {
        on = after_arm(on, arm);
    }
    on
}

/// Whether it is in force after states, if it is `on` before them: the statements of each, and then its transitions. Takes
/// no memory.
pub(crate) fn after_states(mut on: bool, states: &[State]) -> bool
    ensures { result ≡ directives.after_states on (map view_state states.now) }
{
    for state in states {
        on = after_statements(on, state.statements.as_slice());
        on = after_arms(on, state.transitions.as_slice());
    }
    on
}
