//! Loops of a design's signals, and paths from its resets to its registers, as refusals.

ghost use Rattle.std.specs.Prelude.{◌≡◌, ◌<◌, All, IfOk, IfErr, length, get_or};
ghost use Rattle.design.specs.Prelude.{arena, entries_of, Design, no_name, HasNoSignalLoop, IsCellIn};
ghost use Rattle.design.specs.{AllLeadNowhere, AreSignals, IsChainTold, IsFirstFound, IsFoundOf, IsLinkedDesign};

use abel_tree::{Names, Ranked, earlier};
use bit_expr::{CellWanted, Exprs, Netlist};
use design_checks::DesignFault;
use gathering::{Link, reset_path, signal_loop};
use pld_base::{ListOf, OutOfMemory, Place};
use std::alloc::Global;

/// Signals from a reset to a register, with the reset's first target.
#[derive(Drop)]
pub(crate) struct ResetPath {
    pub(crate) place: Place,
    pub(crate) path: ListOf<usize>,
}

impl Ranked for ResetPath {
    ghost use Rattle.design.specs.Chains.{path_order};

    ghost ranks = { path_order };

    fn place(&self) -> Place {
        self.place
    }

    fn rank(&self) -> u8 {
        0
    }
}

/// A path from the reset of a cell to a register, if the cell has a reset and there is one.
fn path_of(
    alloc: Global,
    exprs: &Exprs,
    signals: &[usize],
    links: &[Link],
    wanted: &CellWanted,
) -> Result<Option<ResetPath>, OutOfMemory>
    requires signals { AreSignals signals.now links.now }
    requires inside { IsCellIn (length (arena exprs.now)) wanted.now }
    ensures { IfOk result (λ r. IsFoundOf (arena exprs.now) signals.now links.now wanted.now r) }
{
    match wanted.reset {
        None => Ok(None),
        Some(reset) => match reset_path(alloc, signals, links, &exprs.reads(reset.bit))? {
            None => Ok(None),
            Some(path) => Ok(Some(ResetPath {
                place: reset.place,
                path: ListOf::from_vec(path),
            })),
        },
    }
}

/// The path from the reset that is first, of those from which there is one.
fn first_path(
    alloc: Global,
    exprs: &Exprs,
    signals: &[usize],
    links: &[Link],
    cells: &[CellWanted],
) -> Result<Option<ResetPath>, OutOfMemory>
    requires signals { AreSignals signals.now links.now }
    requires inside { All (IsCellIn (length (arena exprs.now))) cells.now }
    ensures { IfOk result (λ r.
        IsFirstFound (arena exprs.now) signals.now links.now cells.now r) }
{
    let mut first = None;
    for wanted in cells {
        let found = path_of(alloc, exprs, signals, links, wanted)?;
        first = earlier(first, found);
    }
    Ok(first)
}

/// Refused for a loop of signals that begins with the earliest declared on any, at its declaration; else for the reset
/// that is first, of those from which a path leads to a register.
pub(crate) fn check_chains(
    alloc: Global,
    names: &Names,
    net: &Netlist,
    signals: &[usize],
    links: &[Link],
) -> Result<(), DesignFault>
    requires signals { AreSignals signals.now links.now }
    requires linked { (d : Design) × IsLinkedDesign (entries_of names.now) signals.now links.now d }
    requires inside { All (IsCellIn (length (arena net.now.exprs))) net.now.cells }
    ensures no_loop { IfOk result (λ _. (d : Design)
        → IsLinkedDesign (entries_of names.now) signals.now links.now d → HasNoSignalLoop d) }
    ensures no_path { IfOk result (λ _.
        AllLeadNowhere (arena net.now.exprs) signals.now links.now net.now.cells) }
    ensures err { IfErr result (λ f. (d : Design)
        → IsLinkedDesign (entries_of names.now) signals.now links.now d
        → IsChainTold d (arena net.now.exprs) signals.now links.now net.now.cells f) }
{
    match signal_loop(alloc, signals, links)? {
        Some(chain) => {
            let first = chain.as_slice()[0];
            let place = names.list.as_slice()[first].place;
            Err(DesignFault::Loop(place, ListOf::from_vec(chain)))
        }
        None => match first_path(alloc, &net.exprs, signals, links, net.cells.as_slice())? {
            None => Ok(()),
            Some(ResetPath { place, path }) => Err(DesignFault::ResetReadsRegister(place, path)),
        },
    }
}
