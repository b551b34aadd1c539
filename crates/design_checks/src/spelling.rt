//! Equations that are not written as levels are.

ghost use Rattle.std.specs.Prelude.{◌≡◌, IfOk, map};
ghost use Rattle.design_checks.specs.Prelude.{first_refusal, view_section, view_stmt, Design, IsContextOf, context_for};
ghost use Rattle.design_checks.specs.{use_order, list_refused, Knows, section_refused, statement_refused, unwritten};

use crate::learning::learn_names;
use crate::names::KeptUses;
use crate::refused::RefusedUse;
use crate::rule::UseRule;
use crate::written::refused_assign;
use abel_tree::{Section, Stmt, earlier};
use pld_base::OutOfMemory;
use pld_device::Device;
use section_targets::SectionScope;
use std::alloc::Global;

/// The first refusal of a statement, under a guard or not.
#[cycle(statements)]
fn refused_stmt<D: Device>(
    alloc: Global,
    scope: &SectionScope<'_, D>,
    names: &KeptUses<'_, '_>,
    guarded: bool,
    stmt: &Stmt,
) -> Result<Option<RefusedUse>, OutOfMemory>
    ensures { IfOk result (λ r. Knows (context_for D.table scope.now) names.now
        → r ≡ first_refusal use_order (statement_refused (context_for D.table scope.now) guarded (view_stmt stmt.now))) }
{
    match stmt {
        Stmt::Assign(assign) => refused_assign::<D>(alloc, scope, names, guarded, assign),
        Stmt::When(when) => {
            let then = refused_stmt::<D>(alloc, scope, names, true, when.then.get())?;
            match &when.otherwise {
                None => Ok(then),
                Some(other) => {
                    let other = refused_stmt::<D>(alloc, scope, names, true, other.get())?;
                    Ok(earlier(then, other))
                }
            }
        }
        Stmt::Group(list) => refused_list::<D>(alloc, scope, names, guarded, list.as_slice()),
        Stmt::DontCare(_) => Ok(None),
    }
}

/// Of statements, one after the other.
#[cycle(statements)]
fn refused_list<D: Device>(
    alloc: Global,
    scope: &SectionScope<'_, D>,
    names: &KeptUses<'_, '_>,
    guarded: bool,
    list: &[Stmt],
) -> Result<Option<RefusedUse>, OutOfMemory>
    ensures { IfOk result (λ r. Knows (context_for D.table scope.now) names.now
        → r ≡ first_refusal use_order (list_refused (context_for D.table scope.now) guarded (map view_stmt list.now))) }
{
    let mut first = None;
    for stmt in list {
        first = earlier(
            first,
            refused_stmt::<D>(alloc, scope, names, guarded, stmt)?,
        );
    }
    Ok(first)
}

/// Of a section.
fn refused_section<D: Device>(
    alloc: Global,
    scope: &SectionScope<'_, D>,
    names: &KeptUses<'_, '_>,
    section: &Section,
) -> Result<Option<RefusedUse>, OutOfMemory>
    ensures { IfOk result (λ r. Knows (context_for D.table scope.now) names.now
        → r ≡ first_refusal use_order (section_refused (context_for D.table scope.now) (view_section section.now))) }
{
    match section {
        Section::Equations(list) => {
            refused_list::<D>(alloc, scope, names, false, list.as_slice())
        }
        _ => Ok(None),
    }
}

/// The first equation of an EQUATIONS section for a clock, or for the enable of a cell that a pin enables, that is not
/// written as a level: by signals, `!` and sets alone, up to parentheses and constants, and under no WHEN. Its target
/// is reported. None if there isn't one; the only refusal is lack of memory.
pub fn other_spelling<D: Device>(
    alloc: Global,
    scope: &SectionScope<'_, D>,
    sections: &[Section],
) -> Result<Option<RefusedUse>, OutOfMemory>
    ensures { IfOk result (λ r. (d : Design) → IsContextOf D.table scope.now d.context → d.sections ≡ map view_section sections.now
        → r ≡ first_refusal use_order (unwritten d)) }
{
    let rule = UseRule::Extensions;
    let known = scope.scope();
    let learnt = learn_names::<D>(alloc, scope.device(), rule, known)?;
    let names = KeptUses {
        rule,
        scope: known,
        list: learnt.as_slice(),
    };
    let mut first = None;
    for section in sections {
        first = earlier(first, refused_section::<D>(alloc, scope, &names, section)?);
    }
    Ok(first)
}
