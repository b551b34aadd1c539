//! The page of a design.

use crate::failures::put_failures;
use crate::frame::{put_end, put_heading};
use crate::head::{Parts, put_head};
use crate::made::without_end;
use crate::outcome::Outcome;
use crate::source::put_text;
use crate::verdict::Told;
use design_drawings::{
    Design, Page, Piece, Run, firsts_of, put_array, put_cells, put_chip, put_disagreements,
    put_equations, put_waves,
};
use page_model::PageModel;
use pld_base::OutOfMemory;
use pld_device::{Device, Loaded};

/// Writes the line that sums the design up.
fn put_summary(page: &mut Page, parts: Parts) -> Result<(), OutOfMemory> {
    put_heading(page, "summary", "Summary")?;
    page.put(&[
        Piece::Markup("<p><code>"),
        Piece::Text(parts.summary),
        Piece::Markup("</code></p>\n"),
    ])
}

/// Whether some cell is assigned.
fn has_assigned(model: &PageModel) -> bool {
    model.cells.as_slice().iter().any(|cell| cell.is_assigned)
}

/// Writes the part of the cells, with their equations.
fn put_cell_part<D: Device>(
    device: &Loaded<D>,
    page: &mut Page,
    design: Design,
) -> Result<(), OutOfMemory> {
    put_heading(page, "cells", "Cells")?;
    put_cells::<D>(device, page, design)?;
    page.put(&[Piece::Markup("<h3>Equations</h3>\n")])?;
    if !has_assigned(design.model) {
        return page.put(&[Piece::Markup("<p>No cell is used.</p>\n")]);
    }
    page.put(&[Piece::Markup("<div class=\"sums\">\n")])?;
    put_equations::<D>(device, page, design)?;
    page.put(&[Piece::Markup("</div>\n")])
}

/// Writes the parts from the chip to the fuses.
fn put_drawings<D: Device>(
    device: &Loaded<D>,
    page: &mut Page,
    design: Design,
) -> Result<(), OutOfMemory> {
    put_heading(page, "chip", "Chip")?;
    page.put(&[Piece::Markup(
        "<p class=\"hint\">From above, each pin with what has its level: <code>!busy</code> is high where <code>busy</code> is 0. An arrow shows where a level goes; a square marks a register, a wedge the clock. Pins that are not used are faint.</p>\n",
    )])?;
    put_chip(page, design.model)?;
    put_cell_part::<D>(device, page, design)?;
    put_heading(page, "fuses", "Fuses")?;
    page.put(&[Piece::Markup(
        "<p class=\"hint\">A dot is a connection that stands. A line instead of dots is a row whose connections all stand, which is always 0. The number before a row is that of its first fuse.</p>\n",
    )])?;
    put_array::<D>(device, page, design)
}

/// Writes the part of the vectors.
fn put_vectors<D: Device>(
    device: &Loaded<D>,
    page: &mut Page,
    design: Design,
    outcome: &Outcome,
) -> Result<(), OutOfMemory> {
    put_heading(page, "vectors", "Vectors")?;
    match outcome {
        Outcome::NotRun(line) => page.put(&[
            Piece::Markup("<p class=\"bad\">"),
            Piece::Text(without_end(line)),
            Piece::Markup("</p>\n"),
        ]),
        Outcome::Ran(run) if run.report.vectors == 0 => {
            page.put(&[Piece::Markup("<p>There are no test vectors.</p>\n")])
        }
        Outcome::Ran(run) => {
            page.put(&[Piece::Markup(
                "<p class=\"hint\">A lane has the levels of a pin. Inputs change at a vector's beginning, registers at their clock's edge; a dot at its end marks what was tested and agrees. A dashed line in the middle is a pin that nothing drives. In red stand what was expected and what was found (H high, L low, Z released).</p>\n",
            )])?;
            let firsts = firsts_of::<D>(device, design)?;
            put_waves(
                page,
                Run {
                    design,
                    run,
                    firsts: firsts.as_slice(),
                },
            )?;
            put_disagreements(page, design, run.report.list.as_slice())
        }
    }
}

/// Writes the cards of the disagreements.
fn put_cards<D: Device>(
    device: &Loaded<D>,
    page: &mut Page,
    design: Design,
    parts: Parts,
    outcome: &Outcome,
) -> Result<(), OutOfMemory> {
    let Outcome::Ran(run) = outcome else {
        return Ok(());
    };
    let firsts = firsts_of::<D>(device, design)?;
    let told = Told {
        model: design.model,
        lines: parts.lines,
    };
    put_failures::<D>(
        device,
        page,
        Run {
            design,
            run,
            firsts: firsts.as_slice(),
        },
        told,
        parts.source,
    )
}

/// The page of a design.
pub fn drawn_page<D: Device>(
    device: &Loaded<D>,
    design: Design,
    parts: Parts,
    outcome: &Outcome,
) -> Result<Vec<u8>, OutOfMemory> {
    let mut page = Page::new(design.alloc);
    put_head::<D>(device, &mut page, design, parts, outcome)?;
    put_cards::<D>(device, &mut page, design, parts, outcome)?;
    put_drawings::<D>(device, &mut page, design)?;
    put_vectors::<D>(device, &mut page, design, outcome)?;
    if !parts.source.is_empty() {
        put_heading(&mut page, "source", "Source")?;
        put_text(&mut page, design.alloc, parts.source, None)?;
    }
    put_summary(&mut page, parts)?;
    put_end(&mut page)?;
    Ok(page.into_bytes())
}
