//! A netlist with any as 0, under a choice of the polarity of its free registers, as a logic.

ghost use Rattle.std.specs.Prelude.{◌≡◌, IfOk};
ghost use Rattle.source_machine.specs.Prelude.{logic_of, ModuleTree, plain_netlist, IsSoundNetlist, MeansTheSame, netlist_of};
ghost use Rattle.pld_machine.specs.Order.{IsOrdered};
ghost use Rattle.pld_machine.specs.Steps.{IsDetermined};
ghost use Rattle.source_machine.specs.Choices.{module_as_chosen, netlist_as_chosen};
ghost use Rattle.source_machine.specs.Correct.{AllowTheSame};
ghost use Rattle.source_machine.specs.NetlistLookups.{ordered_lookups};

use crate::cells;
use crate::choices::{as_named_point, chosen_cells};
use crate::controls::{RegisterControl, holds};
use crate::links::signal_order;
use crate::values::value;
use arrayvec::ArrayVec;
use bit_expr::Netlist;
use pld_base::{OutOfMemory, Point, level_at};
use pld_device::{Device, Loaded};
use pld_machine::{Logic, Slot};
use std::alloc::Global;
use std::marker::Model;

/// A netlist with any as 0 under a choice, as a logic; contracts see the netlist, the order of its signals, and which of its
/// cells store the complement.
///
/// Its look-ups take no memory. Each goes down the formulas that it asks as trees.
#[derive(Drop)]
pub struct SourceLogic<'a, D: Device> {
    net: &'a Netlist,
    order: ArrayVec<u8, 256>,
    /// Bit c says that cell c stores the complement of what the netlist says of it.
    complemented: u32,
    device: &'a Loaded<D>,
}

impl<'a, D: Device> Model for SourceLogic<'a, D> {
    ghost use Rattle.source_machine.specs.NetlistLookups.{Ordered, IsSoundOrdered};

    ghost Value = { Ordered };

    ghost view = { λ l. record { net = l.net.now; order = l.order.items; complemented = l.complemented } };

    ghost invariant = { λ l. IsSoundOrdered D.table l.net.now l.order.items };
}

impl<'a, D: Device> SourceLogic<'a, D> {
    /// The logic of a module, by its netlist, which the device can take. Bit c of `inverted` makes the free register of cell c
    /// invert, so that it stores the complement; other bits have no effect. Takes memory for a link of each signal.
    pub fn new(
        alloc: Global,
        device: &'a Loaded<D>,
        net: &'a Netlist,
        inverted: u32,
    ) -> Result<SourceLogic<'a, D>, OutOfMemory>
        ghost source: { ModuleTree }
        requires sound { IsSoundNetlist D.table net.now }

        // the netlist is that of the module if no free register inverts, as `gather` answers it
        requires module { plain_netlist net.now ≡ netlist_of D.table source }
        requires same { MeansTheSame D.table source (plain_netlist net.now) }
        ensures net { IfOk result (λ l. l.net ≡ net.now) }

        // it is the netlist's logic with any as 0 under the choice, with slots in an order that `rest` and `step` take
        ensures logic { IfOk result (λ l. logic_of (ordered_lookups D.table l)
            ≡ netlist_as_chosen D.table (plain_netlist net.now) inverted) }
        ensures ordered { IfOk result (λ l. IsOrdered (ordered_lookups D.table l)) }

        // at every point it allows what the module does with any as 0 under the choice, and no more
        ensures module { IfOk result (λ l. AllowTheSame
            (logic_of (ordered_lookups D.table l))
            (module_as_chosen D.table source inverted)) }

        // so it settles, steps and runs in exactly one way
        ensures determined { IfOk result (λ _.
            IsDetermined (netlist_as_chosen D.table (plain_netlist net.now) inverted)) }
    {
        let order = signal_order::<D>(alloc, device, net)?;
        let complemented = chosen_cells::<D>(device, net, inverted);
        Ok(SourceLogic {
            net,
            order,
            complemented,
            device,
        })
    }
}

impl<'a, D: Device> Logic for SourceLogic<'a, D> {
    ghost use Rattle.source_machine.specs.NetlistLookups.{ordered_lookups};

    ghost meaning = { λ l. ordered_lookups D.table l };

    fn cells(&self) -> u8 {
        self.device.cells()
    }

    fn pin(&self, cell: u8) -> u8 {
        cells::cell_of::<D>(self.device, cell).pin
    }

    fn stores(&self, cell: u8) -> bool {
        cells::stores::<D>(self.device, self.net, cell)
    }

    fn clock(&self) -> u8 {
        self.device.clock()
    }

    fn slots(&self) -> u16 {
        self.order.len() as u16
    }

    fn slot(&self, index: u16) -> Slot {
        let signal = self.order.as_slice()[usize::from(index)];
        if signal < self.device.cells() {
            Slot::Cell(signal)
        } else {
            Slot::Node(signal - self.device.cells())
        }
    }

    fn enable(&self, at: &Point, cell: u8) -> bool {
        cells::enable::<D>(
            self.device,
            self.net,
            cell,
            &as_named_point(at, self.complemented),
        )
    }

    fn level(&self, at: &Point, cell: u8) -> bool {
        cells::level::<D>(
            self.device,
            self.net,
            cell,
            &as_named_point(at, self.complemented),
        )
    }

    fn node(&self, at: &Point, node: u8) -> bool {
        let function = cells::node_function(self.net, node);
        value(
            &self.net.exprs,
            function,
            &as_named_point(at, self.complemented),
        )
    }

    fn reset(&self, at: &Point, cell: u8) -> bool {
        let at = as_named_point(at, self.complemented);
        holds(self.net, RegisterControl::Reset, cell, &at)
    }

    fn preset(&self, at: &Point, cell: u8) -> bool {
        let at = as_named_point(at, self.complemented);
        holds(self.net, RegisterControl::Preset, cell, &at)
    }

    fn next(&self, at: &Point, cell: u8) -> bool {
        let next = cells::next(self.net, cell, &as_named_point(at, self.complemented));
        next != level_at(self.complemented, cell)
    }
}
