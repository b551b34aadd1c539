//! The cover of a function in a polarity, made in the pool.

ghost use Rattle.std.specs.Prelude.{◌≤◌, ◌<◌, ◌^◌, IfOk};
ghost use Rattle.fit_plans.specs.Covered.{CanCover, IsCoverOf};

use crate::lists::written_lists;
use crate::turning::all_turned;
use crate::workspace::Workspace;
use bit_expr::{Function, Netlist};
use covers::Cube;
use pld_device::Flip;
use sop_lowering::LowerFault;
use std::alloc::{AllocError, Global};

/// What all covers of a netlist are over: the columns of `vars` pairs, of which pair v carries the complement of its
/// variable where bit v of `turned` is set, and cells whose form is given by `flip`.
#[derive(Drop)]
pub struct Covering<'a> {
    pub net: &'a Netlist,
    pub flip: Flip,
    pub turned: u32,
    pub vars: u8,
    pub ghost few: { vars ≤ 22 },
    pub ghost fits: { turned < 2 ^ 32 },
}

impl<'a> Covering<'a> {
    /// The cover of a function by rows that have what its `one` has, or else the complement: prime and irredundant between
    /// the written lists. None if a list on the way to them would pass 1,024 products. The lists over the columns and room
    /// for the rows are taken first, and no memory once the minimiser begins.
    pub fn cover(
        &self,
        space: &mut Workspace,
        function: Function,
        positive: bool,
    ) -> Result<Option<Vec<Cube>>, AllocError>
        requires { CanCover self.now.vars self.now.net.now function }
        ensures { IfOk result (IsCoverOf self.now.vars self.now.turned self.now.net.now function positive) }
    {
        let lists = match written_lists(space.alloc, self.net, function, positive) {
            Ok(lists) => lists,
            Err(LowerFault::TooWide) => return Ok(None),
            Err(LowerFault::OutOfMemory) => return Err(AllocError),
        };
        let needed = all_turned(space.alloc, &lists.needed, self.turned)?;
        let allowed = all_turned(space.alloc, &lists.allowed, self.turned)?;
        let rows = space.minimised(&needed, &allowed, self.vars)?;
        Ok(Some(rows))
    }
}
