//! Orders, loops, and paths to registers.

ghost use Rattle.std.specs.Prelude.{◌≤◌, IfOk, IfSome, IfNone, length};
ghost use Rattle.gathering.specs.{AreLeaves, HasNoChain, IsReadOrder, IsFirstChain, IsRegisterPath, HasNoRegisterPath};

use crate::graph::{read_by, read_sets, registers};
use crate::link::Link;
use arrayvec::ArrayVec;
use bit_expr::Reads;
use pld_base::OutOfMemory;
use std::alloc::Global;

/// All signals by their places, none of which reads itself or one after it.
pub fn read_order(alloc: Global, links: &[Link]) -> Result<ArrayVec<u8, 256>, OutOfMemory>
    requires few { length links.now ≤ 256 }
    requires leaves { AreLeaves links.now }
    requires no_loop { HasNoChain links.now }
    ensures { IfOk result (λ order. IsReadOrder links.now order.items) }
{
    let sets = read_sets(alloc, links)?;
    match pld_order::order(&sets) {
        Ok(order) => Ok(order),
        Err(_found) => unreachable!(),
    }
}

/// Signals by their places, each of which reads the next, and the last the first; the first is the earliest of all
/// that lie on such a loop. None if there isn't one.
pub fn first_loop(alloc: Global, links: &[Link]) -> Result<Option<ArrayVec<u8, 256>>, OutOfMemory>
    requires few { length links.now ≤ 256 }
    requires leaves { AreLeaves links.now }
    ensures found { IfOk result (λ r. IfSome r (λ chain. IsFirstChain links.now chain.items)) }
    ensures none { IfOk result (λ r. IfNone r (HasNoChain links.now)) }
{
    let sets = read_sets(alloc, links)?;
    match pld_order::order(&sets) {
        Ok(_order) => Ok(None),
        Err(found) => Ok(Some(found.vertices)),
    }
}

/// Signals by their places: the first is read by the leaves, each reads the next, and the last is a register. None
/// if there aren't any.
pub fn path_to_register(
    alloc: Global,
    links: &[Link],
    from: &Reads,
) -> Result<Option<ArrayVec<u8, 256>>, OutOfMemory>
    requires few { length links.now ≤ 256 }
    requires leaves { AreLeaves links.now }
    ensures found { IfOk result (λ r. IfSome r (λ path.
        IsRegisterPath links.now from.now path.items)) }
    ensures none { IfOk result (λ r. IfNone r (HasNoRegisterPath links.now from.now)) }
{
    let sets = read_sets(alloc, links)?;
    let starts = read_by(links, from);
    let ends = registers(links);
    Ok(pld_order::path(&sets, &starts, &ends))
}
