//! The covers of a cell in the forms that it may have.

ghost use Rattle.std.specs.Prelude.{◌≡◌, IfOk, Ok, false, true};
ghost use Rattle.fit_plans.specs.Prelude.{CanLower};
ghost use Rattle.fit_plans.specs.Choices.{FitsRoom};
ghost use Rattle.fit_plans.specs.Covered.{CanCover, HasNoLists, IsListedAs, IsTriedAs, IsTriedCell};
ghost use Rattle.fit_plans.specs.Forms.{may_be_inverted_as, rows_are_positive};

use crate::choosing::Tried;
use crate::covering::Covering;
use crate::forms::{may_be_inverted_as, rows_are_positive};
use crate::lists::written_lists;
use crate::workspace::Workspace;
use bit_expr::{CellWanted, Netlist};
use covers::Cube;
use pld_device::Flip;
use sop_lowering::LowerFault;
use std::alloc::{AllocError, Global};

/// Whether there is a cover that fits the room.
fn fits(cover: &Option<Vec<Cube>>, room: usize) -> bool
    ensures fits { result ≡ true → FitsRoom room cover.now }
    ensures over { result ≡ false → FitsRoom room cover.now → ⊥ }
{
    match cover {
        Some(rows) => rows.len() <= room,
        None => false,
    }
}

impl<'a> Covering<'a> {
    /// The cover of a cell in one form; None if it may not have the form, or if a list on the way would pass 1,024
    /// products.
    pub fn try_form(
        &self,
        space: &mut Workspace,
        wanted: &CellWanted,
        inverted: bool,
    ) -> Result<Option<Vec<Cube>>, AllocError>
        requires { CanCover self.now.vars self.now.net.now wanted.now.function }
        ensures { IfOk result (IsTriedAs self.now.flip self.now.vars self.now.turned self.now.net.now wanted.now inverted) }
    {
        if may_be_inverted_as(self.flip, wanted, inverted) {
            let positive = rows_are_positive(self.flip, wanted, inverted);
            self.cover(space, wanted.function, positive)
        } else {
            Ok(None)
        }
    }

    /// The cover of a cell in its direct form, and in its inverted one only if the direct one doesn't fit the room, a
    /// number of rows: the inverted one of what fits directly may take a second.
    pub fn try_cell(
        &self,
        space: &mut Workspace,
        wanted: &CellWanted,
        room: usize,
    ) -> Result<Tried, AllocError>
        requires { CanCover self.now.vars self.now.net.now wanted.now.function }
        ensures { IfOk result (IsTriedCell self.now.flip room self.now.vars self.now.turned self.now.net.now wanted.now) }
    {
        let direct = self.try_form(space, wanted, false)?;
        if fits(&direct, room) {
            return Ok(Tried {
                direct,
                inverted: None,
            });
        }
        let inverted = self.try_form(space, wanted, true)?;
        Ok(Tried { direct, inverted })
    }
}

/// Whether there are written lists of a cell in one form: not if it may not have the form, nor if a list on the way would
/// pass 1,024 products.
pub fn has_lists(
    alloc: Global,
    net: &Netlist,
    wanted: &CellWanted,
    flip: Flip,
    inverted: bool,
) -> Result<bool, AllocError>
    requires one { CanLower net.now wanted.now.function.one }
    requires any { CanLower net.now wanted.now.function.any }
    ensures some { result ≡ Ok true → IsListedAs flip net.now wanted.now inverted }
    ensures none { result ≡ Ok false → may_be_inverted_as flip wanted.now inverted ≡ true → HasNoLists net.now wanted.now.function (rows_are_positive flip wanted.now inverted) }
{
    if !may_be_inverted_as(flip, wanted, inverted) {
        return Ok(false);
    }
    let positive = rows_are_positive(flip, wanted, inverted);
    match written_lists(alloc, net, wanted.function, positive) {
        Ok(_) => Ok(true),
        Err(LowerFault::TooWide) => Ok(false),
        Err(LowerFault::OutOfMemory) => Err(AllocError),
    }
}
