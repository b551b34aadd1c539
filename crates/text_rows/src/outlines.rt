//! Modules as short texts.

use crate::declaration_outlines::{put_decl, put_words};
use crate::expression_outlines::{put_expr, put_word};
use crate::statement_outlines::{put_arm, put_dont_care, put_stmts};
use abel_tree::{Expr, Module, Section};
use test_rows::Found;

/// A row of a table, or its header.
fn put_sides(found: &mut Found, inputs: &Expr, clocked: bool, outputs: &Expr) {
    put_expr(found, inputs);
    found.text(if clocked { ":>" } else { "->" });
    put_expr(found, outputs);
    found.text("; ")
}

/// A section.
fn put_section(found: &mut Found, section: &Section) {
    match section {
        Section::Declarations(list) => {
            found.text("declarations: ");
            for decl in list.as_slice() {
                put_decl(found, decl);
            }
        }
        Section::Equations(list) => {
            found.text("equations: ");
            put_stmts(found, list.as_slice())
        }
        Section::Table(table) => {
            found.text("table: ");
            put_sides(found, &table.inputs, table.clocked, &table.outputs);
            for row in table.rows.as_slice() {
                put_sides(found, &row.inputs, row.clocked, &row.outputs);
            }
        }
        Section::Diagram(diagram) => {
            found.text("diagram: ");
            put_expr(found, &diagram.registers);
            found.text(" ");
            for state in diagram.states.as_slice() {
                found.text("state ");
                put_expr(found, &state.value);
                found.text(": ");
                put_stmts(found, state.statements.as_slice());
                for arm in state.transitions.as_slice() {
                    put_arm(found, arm);
                }
            }
        }
        Section::Vectors(vectors) => {
            found.text("vectors: ");
            if let Some(note) = &vectors.note {
                put_word(found, note);
                found.text(" ");
            }
            put_sides(found, &vectors.inputs, false, &vectors.outputs);
            for row in vectors.rows.as_slice() {
                put_sides(found, &row.inputs, false, &row.outputs);
            }
        }
        Section::DontCare(dc) => {
            found.text("section ");
            put_dont_care(found, dc.on)
        }
    }
}

/// A module after its name.
pub fn put_module(found: &mut Found, module: &Module) {
    if let Some(title) = &module.title {
        found.text("title ");
        put_word(found, title);
        found.text(" ");
    }
    if !module.options.as_slice().is_empty() {
        found.text("options ");
        put_words(found, module.options.as_slice());
    }
    for decl in module.decls.as_slice() {
        put_decl(found, decl);
    }
    for section in module.sections.as_slice() {
        put_section(found, section);
    }
}
