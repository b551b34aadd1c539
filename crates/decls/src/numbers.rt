//! Names that get pins and nodes.

ghost use Rattle.std.specs.Prelude.{◌≡◌, ◌==◌, OnOk, IfOk, Bool, List, Option, ℕ, if◌then◌else◌};
ghost use Rattle.decls.specs.Prelude.{list_any, Table, Kind, view_meaning};
ghost use Rattle.abel_meaning.specs.SignalPins.{is_signal_pin};
ghost use Rattle.decls.specs.Shown.{Shows, kept_kind, kept_node, view_given, view_said};
ghost use Rattle.decls.specs.Steps.{Progress, entered, node_counted, on_pin};
ghost use Rattle.decls.specs.Walked.{node_step, pin_numbered};

use crate::fault::NameFault;
use crate::items::Given;
use crate::said::Said;
use crate::table::{Known, NameTable};
use abel_tree::Meaning;
use pld_base::{NameText, OutOfMemory};
use std::alloc::Global;

/// How many nodes a source may declare.
const NODES: u32 = 128;

impl NameTable {
    /// Whether a name may have the pin.
    fn has_pin(&self, number: u32) -> bool
        ensures { (t : Table) (s : Progress) → Shows t self.now s → result ≡ is_signal_pin t number }
    {
        number != 0 && number != u32::from(self.ground) && number < u32::from(self.pins)
    }

    /// The pin as it is kept: 0 if no name may have it.
    fn kept_pin(&self, number: u32) -> u8
        ensures { (t : Table) (s : Progress) → Shows t self.now s → result ≡ (if is_signal_pin t number then number else 0) }
    {
        if number < u32::from(self.pins) && self.has_pin(number) {
            number as u8
        } else {
            0
        }
    }

    /// Whether a name has the pin.
    fn is_taken(&self, number: u32) -> bool
        ensures { result ≡ list_any (λ m. m == number) self.now.taken.items }
    {
        for taken in self.taken.as_slice() {
            if *taken == number {
                return true;
            }
        }
        false
    }

    /// Gives a name a pin, or refuses it.
    fn put_on(&mut self, alloc: Global, given: &Given, number: u32) -> Result<(), OutOfMemory>
        ensures { OnOk result ((t : Table) (s : Progress) → Shows t self.old s → Shows t self.new (on_pin t given.now.place given.now.name.items number s)) }
    {
        if !self.has_pin(number) {
            let text = NameText::new(alloc, given.name.as_slice())?;
            self.refuse(NameFault::BadPin(given.place, text));
            return Ok(());
        }
        if self.is_taken(number) {
            let text = NameText::new(alloc, given.name.as_slice())?;
            self.refuse(NameFault::PinTaken(given.place, text));
            return Ok(());
        }
        self.taken.push(number)?;
        Ok(())
    }

    /// Declares a name of a pin declaration; one without a number is on pin 0.
    pub(crate) fn enter_pin(
        &mut self,
        alloc: Global,
        given: &Given,
        number: Option<u32>,
        said: Said,
    ) -> Result<(), OutOfMemory>
        ensures { OnOk result ((t : Table) (s : Progress) → Shows t self.old s → Shows t self.new (pin_numbered t (view_said said) (view_given given.now) number s)) }
    {
        let negated = given.negated;
        match number {
            Some(number) => {
                self.put_on(alloc, given, number)?;
                let pin = self.kept_pin(number);
                self.enter_given(alloc, given, Meaning::Pin { pin, negated }, said)
            }
            None => self.enter_given(alloc, given, Meaning::Pin { pin: 0, negated }, said),
        }
    }

    /// The number of the next node as it is kept: 0 if there are too many.
    fn kept_node(&self) -> u8
        ensures { (t : Table) (s : Progress) → Shows t self.now s → result ≡ kept_node s.nodes }
    {
        if self.nodes < NODES {
            self.nodes as u8
        } else {
            0
        }
    }

    /// Counts one more node, or refuses it.
    fn count_node(&mut self, alloc: Global, given: &Given) -> Result<(), OutOfMemory>
        ensures { OnOk result ((t : Table) (s : Progress) → Shows t self.old s → Shows t self.new (node_counted given.now.place given.now.name.items s)) }
    {
        if self.nodes < NODES {
            self.nodes += 1;
            return Ok(());
        }
        let text = NameText::new(alloc, given.name.as_slice())?;
        self.refuse(NameFault::TooManyNodes(given.place, text));
        Ok(())
    }

    /// Declares a name of a node declaration.
    pub(crate) fn enter_node(
        &mut self,
        alloc: Global,
        given: &Given,
        said: Said,
    ) -> Result<(), OutOfMemory>
        ensures { OnOk result ((t : Table) (s : Progress) → Shows t self.old s → Shows t self.new (node_step (view_said said) s (view_given given.now))) }
    {
        let number = self.kept_node();
        self.count_node(alloc, given)?;
        self.enter_given(alloc, given, Meaning::Node(number), said)
    }

    /// Enters a name of a declaration, if it is new.
    fn enter_given(
        &mut self,
        alloc: Global,
        given: &Given,
        meaning: Meaning,
        said: Said,
    ) -> Result<(), OutOfMemory>
        ensures { OnOk result ((t : Table) (s : Progress) (k : Kind) → view_meaning meaning ≡ kept_kind t k → Shows t self.old s → Shows t self.new (entered given.now.name.items given.now.place k (view_said said) s)) }
    {
        let place = given.place;
        self.enter(
            alloc,
            given.name.as_slice(),
            Known {
                place,
                meaning,
                said,
            },
        )
    }
}
