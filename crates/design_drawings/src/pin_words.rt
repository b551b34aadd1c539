//! What pins are used as, in words.

use crate::labels::put_behind;
use crate::page::{Page, Piece};
use page_model::{CellFacts, Drives, IdleLevels, PageModel, PinFacts, PinUse};
use pld_base::OutOfMemory;

/// What an input is read as.
fn input_word(facts: &PinFacts) -> &'static str {
    match (facts.is_read, facts.is_clock, facts.is_enable) {
        (true, true, _) => "in and clock",
        (true, false, true) => "in and enable",
        (false, true, true) => "clock and enable",
        (false, true, false) => "clock",
        (false, false, true) => "enable",
        (_, false, false) => "in",
    }
}

/// The cell on a pin, if there is one.
fn cell_on(model: &PageModel, facts: &PinFacts) -> Option<CellFacts> {
    match facts.cell {
        Some(cell) => model.cell(cell),
        None => None,
    }
}

/// Whether a pin's cell is assigned. Takes no memory.
pub fn is_assigned(model: &PageModel, facts: &PinFacts) -> bool {
    match cell_on(model, facts) {
        Some(cell) => cell.is_assigned,
        None => false,
    }
}

/// Whether a pin's cell is assigned, and a register. Takes no memory.
pub fn is_register(model: &PageModel, facts: &PinFacts) -> bool {
    match cell_on(model, facts) {
        Some(cell) => cell.is_assigned && cell.is_register,
        None => false,
    }
}

/// What a pin is used as, in a word.
fn use_word(model: &PageModel, facts: &PinFacts) -> &'static str {
    match facts.used_as {
        PinUse::Ground => "ground",
        PinUse::Supply => "supply",
        PinUse::Input => input_word(facts),
        PinUse::Output => "out",
        PinUse::Both => "in and out",
        PinUse::Unused if is_assigned(model, facts) => "never driven",
        PinUse::Unused => "not used",
    }
}

/// The levels of a cell that no row sets, in words.
fn idle_words(idle: IdleLevels) -> &'static str {
    match (idle.first, idle.later) {
        (true, true) => "high",
        (false, false) => "low",
        (true, false) => "high, and low after a clock",
        (false, true) => "low, and high after a clock",
    }
}

/// Writes the levels of a cell that no row sets, and when it drives its pin.
pub fn put_levels(page: &mut Page, model: &PageModel, cell: CellFacts) -> Result<(), OutOfMemory> {
    if let Some(idle) = cell.idle {
        page.put(&[Piece::Markup(", "), Piece::Markup(idle_words(idle))])?;
    }
    match cell.drives {
        Drives::WhileLow(pin) => {
            page.put(&[
                Piece::Markup(", while pin "),
                Piece::Number(usize::from(pin)),
            ])?;
            put_behind(page, model.label(pin))?;
            page.put(&[Piece::Markup(" is low")])
        }
        Drives::ByRow(_) => page.put(&[Piece::Markup(", at times")]),
        _ => Ok(()),
    }
}

/// Writes what a pin is used as: with the levels that it has, if it is driven and no row sets them.
pub fn put_use(page: &mut Page, model: &PageModel, facts: &PinFacts) -> Result<(), OutOfMemory> {
    page.put(&[Piece::Markup(use_word(model, facts))])?;
    match (facts.used_as, cell_on(model, facts)) {
        (PinUse::Output | PinUse::Both, Some(cell)) => put_levels(page, model, cell),
        _ => Ok(()),
    }
}
