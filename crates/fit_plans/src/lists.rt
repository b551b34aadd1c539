//! The two written lists of a function.

ghost use Rattle.std.specs.Prelude.{◌≤◌, IfOk, false, true, vec_len};
ghost use Rattle.fit_plans.specs.Prelude.{CanLower};
ghost use Rattle.fit_plans.specs.Tries.{AreLists, allowed_of, needed_of};

use bit_expr::{Function, Netlist};
use covers::Cube;
use sop_lowering::{LowerFault, lower, product_list, sum_list};
use std::alloc::Global;

/// What rows must have, and what they may have.
#[derive(Drop)]
pub struct Lists {
    pub needed: Vec<Cube>,
    pub allowed: Vec<Cube>,
}

/// The lists of rows that have what `one` has.
fn positive_lists(alloc: Global, net: &Netlist, function: Function) -> Result<Lists, LowerFault>
    requires one { CanLower net.now function.one }
    requires any { CanLower net.now function.any }
    ensures lists { AreLists result (needed_of net.now function true) (allowed_of net.now function true) }
    ensures few { IfOk result (λ l. (vec_len l.needed ≤ 1024) × (vec_len l.allowed ≤ 1024)) }
{
    let needed = lower(alloc, net, function.one, true)?;
    let any = lower(alloc, net, function.any, true)?;
    let allowed = sum_list(needed.clone()?, &any)?;
    Ok(Lists { needed, allowed })
}

/// The lists of rows that have the complement.
fn negative_lists(alloc: Global, net: &Netlist, function: Function) -> Result<Lists, LowerFault>
    requires one { CanLower net.now function.one }
    requires any { CanLower net.now function.any }
    ensures lists { AreLists result (needed_of net.now function false) (allowed_of net.now function false) }
    ensures few { IfOk result (λ l. (vec_len l.needed ≤ 1024) × (vec_len l.allowed ≤ 1024)) }
{
    let allowed = lower(alloc, net, function.one, false)?;
    let any = lower(alloc, net, function.any, false)?;
    let needed = product_list(alloc, &allowed, &any)?;
    Ok(Lists { needed, allowed })
}

/// The written lists of a function for rows that have what its `one` has, or else the complement: `needed` the points
/// at which the OR of the rows must be 1, `allowed` if it may be. TooWide is answered just if a list on the way to one
/// of them would pass 1,024 products.
pub fn written_lists(
    alloc: Global,
    net: &Netlist,
    function: Function,
    positive: bool,
) -> Result<Lists, LowerFault>
    requires one { CanLower net.now function.one }
    requires any { CanLower net.now function.any }
    ensures lists { AreLists result (needed_of net.now function positive) (allowed_of net.now function positive) }
    ensures few { IfOk result (λ l. (vec_len l.needed ≤ 1024) × (vec_len l.allowed ≤ 1024)) }
{
    if positive {
        positive_lists(alloc, net, function)
    } else {
        negative_lists(alloc, net, function)
    }
}
