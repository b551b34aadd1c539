//! How a module of the sample device settles and steps, with any as 0.

ghost use Rattle.std.specs.Prelude.{◌≡◌};
ghost use Rattle.netlist_rows.specs.Prelude.{sample, ModuleTree, plain_netlist, IsSoundNetlist, MeansTheSame, netlist_of};

use crate::drawing::{ModuleNet, draw, gathered};
use crate::places::{put_number, put_word};
use crate::sources::row_module;
use pld_base::{Point, level_at};
use pld_device::{Sample, load};
use pld_machine::{rest, step, trace};
use source_machine::SourceLogic;
use std::alloc::Global;
use test_rows::Found;

/// The numbers of the levels that are 1.
fn put_levels(levels: u32, found: &mut Found) {
    for place in 0..32u8 {
        if level_at(levels, place) {
            put_number(usize::from(place), found);
        }
    }
}

/// The pins that are high, the cells whose Q is 1, and the value of node 0; and the pins that are driven.
fn put_point(at: &Point, driven: u32, found: &mut Found) {
    put_word("pins", found);
    put_levels(at.pins, found);
    put_word("q", found);
    put_levels(at.q, found);
    put_word("node", found);
    put_number((at.nodes & 1) as usize, found);
    put_word("driven", found);
    put_levels(driven, found);
    found.text(";")
}

/// The levels of the pins, or cells, whose numbers are between blanks.
fn levels_of(text: &str) -> Option<u32> {
    let mut levels = 0u32;
    for word in text.split_whitespace() {
        let place = word.parse::<u8>().ok()?;
        if place >= 32 {
            return None;
        }
        levels |= 1 << place;
    }
    Some(levels)
}

/// The levels of each step: the words of a text, which are parted by commas.
fn steps_of(alloc: Global, text: &str) -> Option<Vec<u32>> {
    let mut steps = Vec::new(alloc);
    for levels in text.split(',') {
        steps.push(levels_of(levels)?).ok()?;
    }
    Some(steps)
}

/// The points of a module with the free registers of these cells inverted: at rest with low pins and stored Qs that are 1,
/// and then after each step.
fn put_steps(
    alloc: Global,
    made: &ModuleNet,
    inverted: u32,
    steps: &[u32],
    found: &mut Found,
) -> Option<()>
    ghost source: { ModuleTree }
    requires sound { IsSoundNetlist sample made.now.net }
    requires module { plain_netlist made.now.net ≡ netlist_of sample source }
    requires same { MeansTheSame sample source (plain_netlist made.now.net) }
{
    let device = load::<Sample, Sample>(&Sample);
    let Ok(logic) = SourceLogic::<Sample>::new(alloc, &device, &made.net, inverted) else {
        return None;
    };
    let mut at = rest(&logic, 0, 0b11);
    put_point(&at, trace(&logic, &at).driven, found);
    for levels in steps {
        at = step(&logic, &at, *levels);
        put_point(&at, trace(&logic, &at).driven, found);
    }
    Some(())
}

/// The points of the one module of the names, at rest and after steps to the levels of a text; before a colon are the cells
/// that invert, if any do.
pub(crate) fn put_run(alloc: Global, names: &Found, text: &str, found: &mut Found) -> Option<()> {
    let module = row_module(alloc, names, "", "", "")?;
    let device = load::<Sample, Sample>(&Sample);
    let drawn = draw::<Sample>(alloc, &device, module)?;
    let (made, _vectors) = gathered::<Sample>(alloc, &device, drawn)?;
    let (cells, levels) = match text.split_once(':') {
        Some(both) => both,
        None => ("", text),
    };
    let inverted = levels_of(cells)?;
    let steps = steps_of(alloc, levels)?;
    put_steps(alloc, &made, inverted, steps.as_slice(), found)
}
