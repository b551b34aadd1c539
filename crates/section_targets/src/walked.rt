//! What a walk over the sections of a source leaves.

ghost use Rattle.std.specs.Prelude.{◌≡◌, [], None, OnOk};
ghost use Rattle.section_targets.specs.Prelude.{section_order, is_some};
ghost use Rattle.abel_tree.specs.FirstRefusal as first;
ghost use Rattle.section_targets.specs.{AfterMaking, standing};

use crate::assigned::Assigned;
use abel_tree::earlier;
use bit_expr::Exprs;
use pld_base::OutOfMemory;
use set_expr::{Contribution, SectionFault};
use std::alloc::Global;

/// What was walked so far: its nodes and contributions, how it assigns signals, and the first refusal by place. Once
/// something is refused, units are only checked, and `exprs` and `list` stay. Where memory runs out, the nodes that were
/// there are, and `list` has a front of what was to be appended.
#[derive(Drop)]
pub struct Walked {
    pub exprs: Exprs,
    pub list: Vec<Contribution>,
    pub before: Assigned,
    pub fault: Option<SectionFault>,
}

impl Walked {
    /// Nothing was walked yet. Takes no memory.
    pub fn new(alloc: Global) -> Walked
        ensures exprs { result.exprs ≡ [] }
        ensures list { result.list.items ≡ [] }
        ensures before { result.before ≡ [] }
        ensures fault { result.fault ≡ None }
    {
        Walked {
            exprs: Exprs::new(alloc),
            list: Vec::new(alloc),
            before: Assigned::new(alloc),
            fault: None,
        }
    }

    /// Keeps the refusal of a unit if it is the first; whether anything is refused so far.
    pub fn refuse(&mut self, fault: Option<SectionFault>) -> bool
        ensures first { self.new ≡ record self.old { fault = first.earlier section_order self.old.fault fault } }
        ensures refused { result ≡ is_some self.new.fault }
    {
        self.fault = earlier(self.fault, fault);
        self.fault.is_some()
    }

    /// Keeps why a unit could not be made: it passes the limit of nodes.
    pub fn keep_limit(&mut self, made: Result<(), SectionFault>) -> Result<(), OutOfMemory>
        ensures kept { OnOk result (AfterMaking made self.old self.new) }
        ensures stands { standing self.new ≡ standing self.old }
    {
        match made {
            Ok(()) => Ok(()),
            Err(SectionFault::OutOfMemory) => Err(OutOfMemory),
            Err(fault) => {
                self.fault = Some(fault);
                Ok(())
            }
        }
    }
}
