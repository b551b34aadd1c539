//! The walk over sections, one after another: each unit is checked, and made if nothing is refused so far.

ghost use Rattle.std.specs.Prelude.{◌≡◌, ◌<◌, ◌^◌, ℕ, [], Some, OnOk};
ghost use Rattle.abel_tree.specs.View.{view_section};
ghost use Rattle.abel_meaning.specs.Directives as directives;
ghost use Rattle.abel_meaning.specs.Sections.{next_block};
ghost use Rattle.source_sections.specs.Reading.{WalksSection, WalksSections, view_sections};

use crate::directives::{after_declarations, after_statements, after_states};
use abel_tree::Section;
use bit_expr::ExprId;
use equations::walk_statements;
use pld_base::OutOfMemory;
use pld_device::Device;
use section_targets::{SectionScope, Walked};
use set_expr::Guard;
use state_diagrams::walk_diagram;
use std::alloc::Global;
use truth_tables::walk_table;

/// Whether `@DCSET` is in force after a section, if it is `on` before it. Takes no memory.
fn after_section(on: bool, section: &Section) -> bool
    ensures { result ≡ directives.after_section on (view_section section.now) }
{
    match section {
        Section::Declarations(decls) => after_declarations(on, decls.as_slice()),
        Section::Equations(stmts) => after_statements(on, stmts.as_slice()),
        Section::DontCare(directive) => directive.on,
        Section::Diagram(diagram) => after_states(on, diagram.states.as_slice()),
        Section::Table(_) | Section::Vectors(_) => on,
    }
}

/// The number of the next block after a section, which may be the block with this number. Takes no memory.
fn block_after(block: usize, section: &Section) -> usize
    requires { block < 2 ^ 63 }
    ensures { result ≡ next_block block (view_section section.now) }
{
    match section {
        Section::Table(_) | Section::Diagram(_) => block + 1,
        Section::Declarations(_)
        | Section::Equations(_)
        | Section::Vectors(_)
        | Section::DontCare(_) => block,
    }
}

/// A section after what was walked before. The guard round it has no condition, and the number of the section if it is a
/// block; statements are in no block.
fn walk_section<D: Device>(
    alloc: Global,
    scope: &SectionScope<'_, D>,
    guard: Guard,
    section: &Section,
    out: &mut Walked,
) -> Result<(), OutOfMemory>
    requires { guard.when.0 ≡ 1 }
    ensures { OnOk result ((block : ℕ) → guard.block ≡ Some block → WalksSection D.table scope.now guard.dontcare block (view_section section.now) out.old out.new) }
{
    match section {
        Section::Equations(stmts) => {
            let guard = Guard {
                block: None,
                ..guard
            };
            walk_statements::<D>(alloc, scope, guard, stmts.as_slice(), out)
        }
        Section::Table(table) => walk_table::<D>(alloc, scope, guard, table, out),
        Section::Diagram(diagram) => walk_diagram::<D>(alloc, scope, guard, diagram, out),
        Section::Declarations(_) | Section::DontCare(_) | Section::Vectors(_) => Ok(()),
    }
}

/// The sections of a source, where `@DCSET` is in force before them or not. Nothing is assigned before them.
pub(crate) fn walk_sections<D: Device>(
    alloc: Global,
    scope: &SectionScope<'_, D>,
    starts_dontcare: bool,
    sections: &[Section],
    out: &mut Walked,
) -> Result<(), OutOfMemory>
    requires { out.old.before ≡ [] }
    ensures { OnOk result (WalksSections D.table scope.now starts_dontcare (view_sections sections.now) out.old out.new) }
{
    let mut dontcare = starts_dontcare;
    let mut block = 0usize;
    for section in sections {
        let guard = Guard {
            when: ExprId(1),
            dontcare,
            block: Some(block),
        };
        walk_section::<D>(alloc, scope, guard, section, out)?;
        dontcare = after_section(dontcare, section);
        block = block_after(block, section);
    }
    Ok(())
}
