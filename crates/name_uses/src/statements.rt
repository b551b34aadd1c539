//! The parts of statements.

ghost use Rattle.std.specs.Prelude.{◌≡◌, ◌++◌, ◌∷◌, [], OnOk, map};
ghost use Rattle.std.specs.List.{flat_map};
ghost use Rattle.abel_tree.specs.View.{view, view_stmt};
ghost use Rattle.name_uses.specs.Parts.{part, parts_in_statement};
ghost use Rattle.name_uses.specs.Rolls.{view_when};
ghost use Rattle.name_uses.specs.Viewed.{view_part, view_role};

use crate::part::{Part, Role};
use abel_tree::{Expr, Stmt, When};
use pld_base::OutOfMemory;
use std::alloc::Global;

/// Appends the part that an expression is in this role.
pub(crate) fn put_part<'a>(
    alloc: Global,
    parts: &mut Vec<Part<'a>>,
    role: Role<'a>,
    expr: &'a Expr,
) -> Result<(), OutOfMemory>
    ensures { OnOk result (map view_part parts.new.items
        ≡ map view_part parts.old.items ++ part (view_role role.entry) (view expr.now) ∷ []) }
{
    let part = Part::new(alloc, role, expr)?;
    parts.push(part)?;
    Ok(())
}

/// Appends the parts of a statement.
#[cycle(statements)]
fn put_stmt<'a>(alloc: Global, parts: &mut Vec<Part<'a>>, stmt: &'a Stmt) -> Result<(), OutOfMemory>
    ensures { OnOk result (map view_part parts.new.items
        ≡ map view_part parts.old.items ++ parts_in_statement (view_stmt stmt.now)) }
{
    match stmt {
        Stmt::Assign(assign) => {
            put_part(alloc, parts, Role::Target(assign.sign), &assign.target)?;
            put_part(alloc, parts, Role::Value(&assign.target), &assign.value)
        }
        Stmt::When(when) => put_when(alloc, parts, when),
        Stmt::Group(list) => put_stmts(alloc, parts, list.as_slice()),
        Stmt::DontCare(_) => Ok(()),
    }
}

/// Appends the parts of a WHEN: its condition and those of its statements.
#[cycle(statements)]
fn put_when<'a>(alloc: Global, parts: &mut Vec<Part<'a>>, when: &'a When) -> Result<(), OutOfMemory>
    ensures { OnOk result (map view_part parts.new.items
        ≡ map view_part parts.old.items ++ parts_in_statement (view_when when.now)) }
{
    put_part(alloc, parts, Role::Read, &when.condition)?;
    put_stmt(alloc, parts, when.then.get())?;
    match &when.otherwise {
        Some(other) => put_stmt(alloc, parts, other.get()),
        None => Ok(()),
    }
}

/// Appends the parts of statements, one after the other.
#[cycle(statements)]
pub(crate) fn put_stmts<'a>(
    alloc: Global,
    parts: &mut Vec<Part<'a>>,
    list: &'a [Stmt],
) -> Result<(), OutOfMemory>
    ensures { OnOk result (map view_part parts.new.items
        ≡ map view_part parts.old.items ++ flat_map parts_in_statement (map view_stmt list.now)) }
{
    for stmt in list {
        put_stmt(alloc, parts, stmt)?;
    }
    Ok(())
}
