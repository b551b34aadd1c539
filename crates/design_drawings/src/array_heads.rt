//! What is above the columns of the plot: the pin and the level that each carries.

ghost use Rattle.std.specs.Prelude.{◌<◌, ◌≤◌, IfOk};

use crate::array::{STEP, column_at};
use crate::drawn_design::Design;
use crate::labels::{label_length, put_label, put_title_if_long};
use crate::page::{Page, Piece};
use fuse_listing::{Burned, carry_at, pin_of, put_column};
use pld_base::OutOfMemory;
use pld_device::{Device, Loaded};

/// What a column carries, as a literal.
pub fn literal<'a, D: Device>(
    device: &'a Loaded<D>,
    design: Design<'a>,
    column: u16,
) -> Result<Vec<u8>, OutOfMemory>
    requires { column < D.table.columns }
{
    let burned = Burned {
        device,
        fuses: design.levels(),
        names: design.names,
    };
    let mut text = Vec::new(design.alloc);
    put_column::<D>(design.alloc, &mut text, &burned, column)?;
    Ok(text)
}

/// How many bytes the longest of the columns' literals shows.
fn longest<D: Device>(device: &Loaded<D>, design: Design) -> Result<u8, OutOfMemory> {
    let mut most = 0u8;
    for column in 0..device.columns() {
        let length = label_length(&literal::<D>(device, design, column)?);
        if most < length {
            most = length;
        }
    }
    Ok(most)
}

/// How high the literals of the columns are.
pub fn levels_height<D: Device>(device: &Loaded<D>, design: Design) -> Result<usize, OutOfMemory>
    ensures { IfOk result (λ height. height ≤ 2000) }
{
    let most = longest::<D>(device, design)?;
    Ok(usize::from(most) * 6 + 7)
}

/// Writes the literal of a column, from the bottom up.
fn put_head<D: Device>(
    device: &Loaded<D>,
    page: &mut Page,
    design: Design,
    column: u16,
    down: usize,
) -> Result<(), OutOfMemory>
    requires { column < D.table.columns }
{
    let text = literal::<D>(device, design, column)?;
    page.put(&[
        Piece::Markup("<text transform=\"translate("),
        Piece::Number(column_at(column) + 3),
        Piece::Markup(" "),
        Piece::Number(down),
        Piece::Markup(")rotate(-90)\">"),
    ])?;
    put_title_if_long(page, &text)?;
    put_label(page, &text)?;
    page.put(&[Piece::Markup("</text>")])
}

/// Writes a stripe after every second pair, down a drawing of this height.
pub fn put_stripes<D: Device>(
    device: &Loaded<D>,
    page: &mut Page,
    height: usize,
) -> Result<(), OutOfMemory> {
    page.put(&[Piece::Markup("<path class=\"stripe\" d=\"")])?;
    for column in 0..device.columns() {
        if column % 4 == 2 {
            page.put(&[
                Piece::Markup("M"),
                Piece::Number(column_at(column) - STEP / 2),
                Piece::Markup(" 0h18v"),
                Piece::Number(height),
                Piece::Markup("h-18z"),
            ])?;
        }
    }
    page.put(&[Piece::Markup("\"/>")])
}

/// Writes the pin of a pair above its columns, of which the lower one is given.
fn put_pair<D: Device>(device: &Loaded<D>, page: &mut Page, column: u16) -> Result<(), OutOfMemory>
    requires { column < D.table.columns }
{
    page.put(&[
        Piece::Markup("<text class=\"m\" x=\""),
        Piece::Number(column_at(column) + STEP / 2),
        Piece::Markup("\" y=\"9\">"),
        Piece::Number(usize::from(pin_of::<D>(device, carry_at::<D>(device, column)))),
        Piece::Markup("</text>"),
    ])
}

/// Writes the pins above the columns.
pub fn put_pins<D: Device>(device: &Loaded<D>, page: &mut Page) -> Result<(), OutOfMemory> {
    for column in 0..device.columns() {
        if column % 2 == 0 {
            put_pair::<D>(device, page, column)?;
        }
    }
    page.put(&[Piece::Markup("\n")])
}

/// Writes the literals of all columns, which end so far down.
pub fn put_levels<D: Device>(
    device: &Loaded<D>,
    page: &mut Page,
    design: Design,
    down: usize,
) -> Result<(), OutOfMemory> {
    for column in 0..device.columns() {
        put_head::<D>(device, page, design, column, down)?;
    }
    page.put(&[Piece::Markup("\n")])
}
