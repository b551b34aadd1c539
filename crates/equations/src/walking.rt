//! The walk over statements: each unit is checked, and made if nothing is refused so far.

ghost use Rattle.std.specs.Prelude.{◌≡◌, ◌<◌, length, OnOk};
ghost use Rattle.equations.specs.Prelude.{arena, view_stmt};
ghost use Rattle.equations.specs.{GivesAssign, IsAcceptedAssign, view_assign, view_when, view_list, WalksStatement, WalksStatements, StandsStatement, StandsStatements};

use crate::assigning::check_assign;
use crate::choices::{Condition, walk_condition};
use crate::conditions::{is_clocked, sign_gives};
use crate::values::{Meets, value_bits};
use abel_tree::{Assign, Stmt, When};
use name_uses::target_extension;
use pld_base::OutOfMemory;
use pld_device::Device;
use section_targets::{Giver, Giving, SectionScope, Walked, give_all};
use set_expr::{Guard, SectionFault};
use std::alloc::Global;

/// The contributions of an assignment of which nothing is refused.
fn give_assign<D: Device>(
    alloc: Global,
    scope: &SectionScope<'_, D>,
    guard: Guard,
    assign: &Assign,
    out: &mut Walked,
) -> Result<(), SectionFault>
    requires guard { guard.when.0 < length (arena out.old.exprs) }
    requires accepted { IsAcceptedAssign D.table scope.now assign.now }
    ensures before { out.new.before ≡ out.old.before }
    ensures fault { out.new.fault ≡ out.old.fault }
    ensures gives { GivesAssign D.table scope.now guard assign.now out.old out.new result }
{
    let side = scope.target(alloc, assign.place, &assign.target)?;
    let aims = side.aims.as_slice();
    let meets = Meets {
        unit: assign.place,
        signals: aims.len(),
    };
    let bits = value_bits::<D>(alloc, scope, &assign.value, meets, &mut out.exprs)?;
    let giving = Giving {
        unit: assign.place,
        guard,
        extension: target_extension(&assign.target),
        complement: assign.complement,
        clocked: is_clocked(assign.sign),
        what: sign_gives(assign.sign),
    };
    let giver = Giver {
        scope: scope.scope(),
        giving,
    };
    give_all(&giver, aims, &bits, &mut out.exprs, &mut out.list)
}

/// An assignment.
fn walk_assign<D: Device>(
    alloc: Global,
    scope: &SectionScope<'_, D>,
    guard: Guard,
    assign: &Assign,
    out: &mut Walked,
) -> Result<(), OutOfMemory>
    requires guard { guard.when.0 < length (arena out.old.exprs) }
    ensures walks { OnOk result (WalksStatement D.table scope.now guard (view_assign assign.now) out.old out.new) }
    ensures stands { StandsStatement D.table scope.now guard (view_assign assign.now) out.old out.new }
{
    let fault = check_assign::<D>(alloc, scope, assign, &mut out.before)?;
    if out.refuse(fault) {
        return Ok(());
    }
    let made = give_assign::<D>(alloc, scope, guard, assign, out);
    out.keep_limit(made)
}

/// WHEN: the unit of its condition, its statement and that of its ELSE.
#[cycle(walks)]
fn walk_when<D: Device>(
    alloc: Global,
    scope: &SectionScope<'_, D>,
    guard: Guard,
    when: &When,
    out: &mut Walked,
) -> Result<(), OutOfMemory>
    requires guard { guard.when.0 < length (arena out.old.exprs) }
    ensures walks { OnOk result (WalksStatement D.table scope.now guard (view_when when.now) out.old out.new) }
    ensures stands { StandsStatement D.table scope.now guard (view_when when.now) out.old out.new }
{
    let condition = Condition {
        unit: when.place,
        expr: &when.condition,
        otherwise: when.otherwise.is_some(),
    };
    let chosen = walk_condition::<D>(alloc, scope, guard.when, &condition, out)?;
    let then = Guard {
        when: chosen.then,
        ..guard
    };
    walk_statement::<D>(alloc, scope, then, when.then.get(), out)?;
    match &when.otherwise {
        None => Ok(()),
        Some(other) => {
            let otherwise = Guard {
                when: chosen.otherwise,
                ..guard
            };
            walk_statement::<D>(alloc, scope, otherwise, other.get(), out)
        }
    }
}

/// A statement.
#[cycle(walks)]
fn walk_statement<D: Device>(
    alloc: Global,
    scope: &SectionScope<'_, D>,
    guard: Guard,
    stmt: &Stmt,
    out: &mut Walked,
) -> Result<(), OutOfMemory>
    requires guard { guard.when.0 < length (arena out.old.exprs) }
    ensures walks { OnOk result (WalksStatement D.table scope.now guard (view_stmt stmt.now) out.old out.new) }
    ensures stands { StandsStatement D.table scope.now guard (view_stmt stmt.now) out.old out.new }
{
    match stmt {
        Stmt::Assign(assign) => walk_assign::<D>(alloc, scope, guard, assign, out),
        Stmt::When(when) => walk_when::<D>(alloc, scope, guard, when, out),
        Stmt::Group(group) => walk_statements::<D>(alloc, scope, guard, group.as_slice(), out),
        Stmt::DontCare(_) => Ok(()),
    }
}

/// Statements one after another under a guard, after what was walked before. Calls go as deep as the nestings of
/// statements.
#[cycle(walks)]
pub fn walk_statements<D: Device>(
    alloc: Global,
    scope: &SectionScope<'_, D>,
    guard: Guard,
    stmts: &[Stmt],
    out: &mut Walked,
) -> Result<(), OutOfMemory>
    requires guard { guard.when.0 < length (arena out.old.exprs) }
    ensures walks { OnOk result (WalksStatements D.table scope.now guard (view_list stmts.now) out.old out.new) }
    ensures stands { StandsStatements D.table scope.now guard (view_list stmts.now) out.old out.new }
{
    for stmt in stmts {
        walk_statement::<D>(alloc, scope, guard, stmt, out)?;
    }
    Ok(())
}
