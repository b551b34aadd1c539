//! The equations of the cells, as sums of products in the source's names.

ghost use Rattle.std.specs.Prelude.{◌≡◌, ◌<◌, ◌++◌, IfOk, OnOk, Some, codes, flat_map, length};
ghost use Rattle.pld_device.specs.Macrocells.{complement_if};
ghost use Rattle.abel_tree.specs.Entries.{entries_of, view_declared};
ghost use Rattle.fuse_listing.specs.Listing.{literal_text, names_complement, rows_in_use};
ghost use Rattle.design_drawings.specs.Equations.{assigned_item, equation_item, equation_items, lowers_pin, product_item};
ghost use Rattle.design_drawings.specs.Equations.{sign_text, sum_items, target_item};

use crate::cells::put_product;
use crate::drawn_design::Design;
use crate::page::{Page, Piece};
use abel_tree::Declared;
use fuse_listing::{
    cell_of, complements_output, is_in_use, name_on, names_complement, says, stores,
};
use pld_base::OutOfMemory;
use pld_device::{Device, Flip, Loaded};
use std::alloc::Global;

/// Whether a cell's pin is low if one of its rows is true; of a register, after the clock. Takes no memory.
pub fn lowers<D: Device>(device: &Loaded<D>, design: Design, cell: u8) -> bool
    requires { cell < length D.table.cells }
    ensures { result ≡ lowers_pin D.table design.entry.file.now.fuses cell }
{
    let levels = design.levels();
    match device.flip() {
        Flip::Always | Flip::AfterRegister => complements_output::<D>(device, levels, cell),
        Flip::BeforeRegister => {
            if stores::<D>(device, levels, cell) {
                says(levels, device.inverted_at(cell))
            } else {
                complements_output::<D>(device, levels, cell)
            }
        }
    }
}

/// A name, with `!` before it or not.
fn literal(alloc: Global, complement: bool, name: &[u8]) -> Result<Vec<u8>, OutOfMemory>
    ensures { IfOk result (λ text. text.items ≡ literal_text complement name.now) }
{
    let mut text = Vec::new(alloc);
    if complement {
        text.push(b'!')?;
    }
    text.extend_from_slice(name)?;
    Ok(text)
}

/// What is between a name and its products.
fn sign(is_register: bool) -> &'static str
    ensures { result.now ≡ sign_text is_register }
{
    if is_register { " :=" } else { " =" }
}

/// Whether a cell's equation assigns the complement of its pin's name.
fn assigns_complement<D: Device>(
    device: &Loaded<D>,
    design: Design,
    cell: u8,
    declared: &Declared,
) -> bool
    requires { cell < length D.table.cells }
    ensures { result ≡ complement_if (lowers_pin D.table design.entry.file.now.fuses cell)
        (names_complement (Some (view_declared declared.now))) }
{
    lowers::<D>(device, design, cell) != names_complement(Some(declared))
}

/// Writes the left side of the equation of a cell, by its pin's name.
fn put_target<D: Device>(
    device: &Loaded<D>,
    page: &mut Page,
    design: Design,
    cell: u8,
    declared: &Declared,
) -> Result<(), OutOfMemory>
    requires { cell < length D.table.cells }
    ensures { OnOk result (page.new ≡ page.old
        ++ target_item D.table design.entry.file.now.fuses cell (view_declared declared.now)) }
{
    let complement = assigns_complement::<D>(device, design, cell, declared);
    let is_register = stores::<D>(device, design.levels(), cell);
    let text = literal(design.alloc, complement, declared.name.bytes())?;
    page.put(&[
        Piece::Markup("<dl><dt><code>"),
        Piece::Text(&text),
        Piece::Markup(sign(is_register)),
        Piece::Markup("</code></dt>"),
    ])
}

/// Writes a product on a line of its own, after a sign or not.
#[tactic(auto, unfolding(crate::specs::Equations::product_item))]
fn put_line<D: Device>(
    device: &Loaded<D>,
    page: &mut Page,
    design: Design,
    front: &'static str,
    row: u16,
) -> Result<(), OutOfMemory>
    ensures { OnOk result (page.new ≡ page.old
        ++ product_item D.table design.entry.file.now.fuses (entries_of design.entry.names.now) front.now row) }
{
    page.put(&[Piece::Markup("<dd><code>"), Piece::Markup(front)])?;
    put_product::<D>(device, page, design, row)?;
    page.put(&[Piece::Markup("</code></dd>")])
}

/// Writes the products after the first one.
fn put_others<D: Device>(
    device: &Loaded<D>,
    page: &mut Page,
    design: Design,
    rows: &[u16],
) -> Result<(), OutOfMemory>
    ensures { OnOk result (page.new ≡ page.old
        ++ flat_map (product_item D.table design.entry.file.now.fuses (entries_of design.entry.names.now) (codes "# ")) rows.now) }
{
    for row in rows {
        put_line::<D>(device, page, design, "# ", *row)?;
    }
    Ok(())
}

/// Writes the products of rows in use.
fn put_sum<D: Device>(
    device: &Loaded<D>,
    page: &mut Page,
    design: Design,
    rows: &[u16],
) -> Result<(), OutOfMemory>
    ensures { OnOk result (page.new ≡ page.old
        ++ sum_items D.table design.entry.file.now.fuses (entries_of design.entry.names.now) rows.now) }
{
    match rows {
        [] => page.put(&[Piece::Markup("<dd><code>0</code></dd>")]),
        [first, others @ ..] => {
            put_line::<D>(device, page, design, "", *first)?;
            put_others::<D>(device, page, design, others)
        }
    }
}

/// The data rows of a cell that are in use.
fn used_rows<D: Device>(
    device: &Loaded<D>,
    design: Design,
    cell: u8,
) -> Result<Vec<u16>, OutOfMemory>
    requires { cell < length D.table.cells }
    ensures { IfOk result (λ rows. rows.items ≡ rows_in_use D.table design.entry.file.now.fuses cell) }
{
    let found = cell_of::<D>(device, cell);
    let levels = design.levels();
    let rows: Vec<u16> = (found.first..found.first + u16::from(found.room))
        .filter(|row| is_in_use::<D>(device, levels, *row))
        .collect(design.alloc)?;
    Ok(rows)
}

/// Writes the equation of a cell, by its pin's name.
fn put_equation<D: Device>(
    device: &Loaded<D>,
    page: &mut Page,
    design: Design,
    cell: u8,
    declared: &Declared,
) -> Result<(), OutOfMemory>
    requires { cell < length D.table.cells }
    ensures { OnOk result (page.new ≡ page.old
        ++ equation_item D.table design.entry.file.now.fuses (entries_of design.entry.names.now) cell (view_declared declared.now)) }
{
    put_target::<D>(device, page, design, cell, declared)?;
    let rows = used_rows::<D>(device, design, cell)?;
    put_sum::<D>(device, page, design, &rows)?;
    page.put(&[Piece::Markup("</dl>\n")])
}

/// Writes the equation of a cell whose pin's name is assigned.
fn put_if_assigned<D: Device>(
    device: &Loaded<D>,
    page: &mut Page,
    design: Design,
    cell: u8,
) -> Result<(), OutOfMemory>
    requires { cell < length D.table.cells }
    ensures { OnOk result (page.new ≡ page.old
        ++ assigned_item D.table design.entry.file.now.fuses (entries_of design.entry.names.now) cell) }
{
    if let Some(declared) = name_on(design.names, cell_of::<D>(device, cell).pin) {
        if declared.assigned {
            put_equation::<D>(device, page, design, cell, declared)?;
        }
    }
    Ok(())
}

/// Writes the equations of the assigned cells, in the order of the cells: their products are those of the listing.
pub fn put_equations<D: Device>(
    device: &Loaded<D>,
    page: &mut Page,
    design: Design,
) -> Result<(), OutOfMemory>
    ensures { OnOk result (page.new ≡ page.old
        ++ equation_items D.table design.entry.file.now.fuses (entries_of design.entry.names.now)) }
{
    for cell in 0..device.cells() {
        put_if_assigned::<D>(device, page, design, cell)?;
    }
    Ok(())
}
