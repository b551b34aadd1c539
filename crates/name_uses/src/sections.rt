//! The parts of sections.

ghost use Rattle.std.specs.Prelude.{◌≡◌, ◌++◌, ◌∷◌, [], IfOk, OnOk, map};
ghost use Rattle.std.specs.List.{flat_map};
ghost use Rattle.abel_tree.specs.View.{view, view_row, view_section, view_state, view_vector_row};
ghost use Rattle.name_uses.specs.Parts.{Entry, Outputs, Read, Registers, part, parts_in_row, parts_in_section, parts_in_state};
ghost use Rattle.name_uses.specs.Viewed.{view_part};

use crate::part::{Part, Role};
use crate::statements::{put_part, put_stmts};
use crate::transitions::put_arms;
use abel_tree::{Diagram, Expr, Row, Section, State, Table, VectorRow, Vectors};
use pld_base::OutOfMemory;
use std::alloc::Global;

/// Appends two expressions that read no signal.
fn put_entries<'a>(
    alloc: Global,
    parts: &mut Vec<Part<'a>>,
    inputs: &'a Expr,
    outputs: &'a Expr,
) -> Result<(), OutOfMemory>
    ensures { OnOk result (map view_part parts.new.items ≡ map view_part parts.old.items
        ++ part Entry (view inputs.now) ∷ part Entry (view outputs.now) ∷ []) }
{
    put_part(alloc, parts, Role::Entry, inputs)?;
    put_part(alloc, parts, Role::Entry, outputs)
}

/// Appends the parts of the rows of a table.
fn put_rows<'a>(
    alloc: Global,
    parts: &mut Vec<Part<'a>>,
    rows: &'a [Row],
) -> Result<(), OutOfMemory>
    ensures { OnOk result (map view_part parts.new.items
        ≡ map view_part parts.old.items ++ flat_map parts_in_row (map view_row rows.now)) }
{
    for row in rows {
        put_entries(alloc, parts, &row.inputs, &row.outputs)?;
    }
    Ok(())
}

/// Appends the parts of a table.
fn put_table<'a>(
    alloc: Global,
    parts: &mut Vec<Part<'a>>,
    table: &'a Table,
) -> Result<(), OutOfMemory>
    ensures { OnOk result (map view_part parts.new.items ≡ map view_part parts.old.items
        ++ part Read (view table.now.inputs) ∷ part (Outputs table.now.clocked) (view table.now.outputs)
        ∷ flat_map parts_in_row (map view_row table.now.rows)) }
{
    put_part(alloc, parts, Role::Read, &table.inputs)?;
    put_part(alloc, parts, Role::Outputs(table.clocked), &table.outputs)?;
    put_rows(alloc, parts, table.rows.as_slice())
}

/// Appends the parts of the rows of vectors.
fn put_vector_rows<'a>(
    alloc: Global,
    parts: &mut Vec<Part<'a>>,
    rows: &'a [VectorRow],
) -> Result<(), OutOfMemory>
    ensures { OnOk result (map view_part parts.new.items
        ≡ map view_part parts.old.items ++ flat_map parts_in_row (map view_vector_row rows.now)) }
{
    for row in rows {
        put_entries(alloc, parts, &row.inputs, &row.outputs)?;
    }
    Ok(())
}

/// Appends the parts of vectors.
fn put_vectors<'a>(
    alloc: Global,
    parts: &mut Vec<Part<'a>>,
    vectors: &'a Vectors,
) -> Result<(), OutOfMemory>
    ensures { OnOk result (map view_part parts.new.items ≡ map view_part parts.old.items
        ++ part Entry (view vectors.now.inputs) ∷ part Entry (view vectors.now.outputs)
        ∷ flat_map parts_in_row (map view_vector_row vectors.now.rows)) }
{
    put_entries(alloc, parts, &vectors.inputs, &vectors.outputs)?;
    put_vector_rows(alloc, parts, vectors.rows.as_slice())
}

/// Appends the parts of a state.
fn put_state<'a>(
    alloc: Global,
    parts: &mut Vec<Part<'a>>,
    state: &'a State,
) -> Result<(), OutOfMemory>
    ensures { OnOk result (map view_part parts.new.items
        ≡ map view_part parts.old.items ++ parts_in_state (view_state state.now)) }
{
    put_part(alloc, parts, Role::Entry, &state.value)?;
    put_stmts(alloc, parts, state.statements.as_slice())?;
    put_arms(alloc, parts, state.transitions.as_slice())
}

/// Appends the parts of states, one after the other.
fn put_states<'a>(
    alloc: Global,
    parts: &mut Vec<Part<'a>>,
    states: &'a [State],
) -> Result<(), OutOfMemory>
    ensures { OnOk result (map view_part parts.new.items
        ≡ map view_part parts.old.items ++ flat_map parts_in_state (map view_state states.now)) }
{
    for state in states {
        put_state(alloc, parts, state)?;
    }
    Ok(())
}

/// Appends the parts of a diagram.
fn put_diagram<'a>(
    alloc: Global,
    parts: &mut Vec<Part<'a>>,
    diagram: &'a Diagram,
) -> Result<(), OutOfMemory>
    ensures { OnOk result (map view_part parts.new.items ≡ map view_part parts.old.items
        ++ part Registers (view diagram.now.registers) ∷ flat_map parts_in_state (map view_state diagram.now.states)) }
{
    put_part(alloc, parts, Role::Registers, &diagram.registers)?;
    put_states(alloc, parts, diagram.states.as_slice())
}

/// The parts of a section, in order of the source.
pub(crate) fn parts_of(alloc: Global, section: &Section) -> Result<Vec<Part<'_>>, OutOfMemory>
    ensures { IfOk result (λ parts. map view_part parts.items ≡ parts_in_section (view_section section.now)) }
{
    let mut parts = Vec::new(alloc);
    match section {
        Section::Declarations(_) => {}
        Section::Equations(list) => put_stmts(alloc, &mut parts, list.as_slice())?,
        Section::Table(table) => put_table(alloc, &mut parts, table)?,
        Section::Diagram(diagram) => put_diagram(alloc, &mut parts, diagram)?,
        Section::Vectors(vectors) => put_vectors(alloc, &mut parts, vectors)?,
        Section::DontCare(_) => {}
    }
    Ok(parts)
}
