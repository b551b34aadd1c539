//! How often a list is still to be used, which says when a list can be let go. Contracts see only how many were not used
//! yet, by which the walk is seen to end.

ghost use Rattle.std.specs.Prelude.{◌≤◌, ◌+◌, if◌then◌else◌};
ghost use Rattle.sop_lowering.specs.Keeping.{unused, unused_in};

use crate::kept::SignedBit;
use std::alloc::{AllocError, Global};

/// For each id the uses of the list of the bit, and of that of its complement.
#[derive(Drop)]
pub(crate) struct Uses {
    positive: Vec<u32>,
    negative: Vec<u32>,
}

/// No uses, for so many ids.
fn no_uses(alloc: Global, ids: usize) -> Result<Vec<u32>, AllocError> {
    let mut uses = Vec::new(alloc);
    for _id in 0..ids {
        uses.push(0)?;
    }
    Ok(uses)
}

/// One use more; whether it is the first.
fn add_at(uses: &mut [u32], id: usize) -> bool
    ensures { unused_in uses.new + (if result then 1 else 0) ≤ unused_in uses.old }
{
    if id >= uses.len() {
        return false;
    }
    let before = uses[id];
    uses[id] = before.saturating_add(1);
    before == 0
}

/// One use less; whether it was the last.
fn take_at(uses: &mut [u32], id: usize) -> bool {
    if id >= uses.len() {
        return false;
    }
    let left = uses[id].saturating_sub(1);
    uses[id] = left;
    left == 0
}

impl Uses {
    /// No uses, for so many ids.
    pub(crate) fn for_ids(alloc: Global, ids: usize) -> Result<Uses, AllocError> {
        let positive = no_uses(alloc, ids)?;
        let negative = no_uses(alloc, ids)?;
        Ok(Uses { positive, negative })
    }

    /// One use more; whether it is the first.
    pub(crate) fn add(&mut self, bit: SignedBit) -> bool
        ensures { unused self.new + (if result then 1 else 0) ≤ unused self.old }
    {
        if bit.positive {
            add_at(&mut self.positive, bit.id.0)
        } else {
            add_at(&mut self.negative, bit.id.0)
        }
    }

    /// One use less; whether it was the last.
    pub(crate) fn take(&mut self, bit: SignedBit) -> bool {
        if bit.positive {
            take_at(&mut self.positive, bit.id.0)
        } else {
            take_at(&mut self.negative, bit.id.0)
        }
    }
}
