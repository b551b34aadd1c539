//! What all sections of a source contribute.

ghost use Rattle.abel_tree.specs.View.{view_module};
ghost use Rattle.source_sections.specs.SectionAnswers.{AnswersModule};

use crate::directives::after_declarations;
use crate::walking::walk_sections;
use abel_tree::{Module, earlier};
use pld_base::ListOf;
use pld_device::Device;
use section_targets::{SectionScope, Walked};
use set_expr::{Contributions, SectionFault};
use std::alloc::Global;

/// What the sections of a module contribute in their order, made in an arena of their own, if nothing is refused of its
/// constants and its sections. Else the first refusal by place; the limit of nodes counts among them. Everything is
/// gone over once: each unit is checked, and made if no unit is refused so far.
pub fn contributions<D: Device>(
    alloc: Global,
    scope: &SectionScope<'_, D>,
    source: &Module,
) -> Result<Contributions, SectionFault>
    ensures { AnswersModule D.table scope.now (view_module source.now) result }
{
    let starts_dontcare = after_declarations(false, source.decls.as_slice());
    let sections = source.sections.as_slice();
    let mut out = Walked::new(alloc);
    walk_sections::<D>(alloc, scope, starts_dontcare, sections, &mut out)?;
    let constant = scope.scope().check_constants().err();
    match earlier(constant, out.fault) {
        None => Ok(Contributions {
            exprs: out.exprs,
            list: ListOf::from_vec(out.list),
        }),
        Some(fault) => Err(fault),
    }
}
