//! The point at which pairs have given levels, its nodes valued with any as 0.

ghost use Rattle.std.specs.Prelude.{◌≡◌, ◌<◌, IfOk, false, get_or, length};
ghost use Rattle.fitter.specs.Prelude.{bits, is_on, levels_of, complement_if, arena, formula_at, formula_value, IsValuedFor, plain_netlist, IsSoundNetlist};
ghost use Rattle.fitter.specs.Evaluating.{AreNext, AreWired, CanEvaluate, HasValues, IsLastOf, IsWired};

use bit_expr::{ExprId, Exprs, Function, Netlist, Node};
use pld_base::{Point, level_at, with_level, with_value};
use pld_device::Device;
use std::alloc::{AllocError, Global};

/// The value of a formula of the arena at a point, by those of the formulas before it.
fn value_of(exprs: &Exprs, id: ExprId, values: &[bool], at: &Point) -> bool
    requires inside { id.0 < length (arena exprs.now) }
    requires before { length values.now ≡ id.0 }
    requires values { HasValues exprs.now (levels_of at.now) values.now }
    ensures { result ≡ formula_value (levels_of at.now) (formula_at (arena exprs.now) id) }
{
    match exprs.get(id) {
        Node::Const(on) => on,
        Node::Leaf(_) => exprs.eval(id, at),
        Node::Not(a) => !values[a.0],
        Node::And(a, b) => values[a.0] && values[b.0],
        Node::Or(a, b) => values[a.0] || values[b.0],
        Node::Xor(a, b) => values[a.0] != values[b.0],
    }
}

/// The values of the formulas of the arena up to one at a point.
fn values_of(
    alloc: Global,
    exprs: &Exprs,
    last: ExprId,
    at: &Point,
) -> Result<Vec<bool>, AllocError>
    requires { last.0 < length (arena exprs.now) }
    ensures count { IfOk result (λ values. last.0 < length values.items) }
    ensures values { IfOk result (λ values. HasValues exprs.now (levels_of at.now) values.items) }
{
    let mut values = Vec::new(alloc);
    for id in 0..last.0 {
        let value = value_of(exprs, ExprId(id), &values, at);
        values.push(value)?;
    }
    let value = value_of(exprs, last, &values, at);
    values.push(value)?;
    Ok(values)
}

/// The last formula of the arena that the nodes' functions have.
fn last_of(net: &Netlist) -> ExprId
    requires { CanEvaluate net.now }
    ensures { IsLastOf net.now result }
{
    let mut last = 0;
    for function in net.nodes.as_slice() {
        last = last.max(function.one.0);
    }
    ExprId(last)
}

/// The value of a function with any as 0, by those of the arena's formulas.
fn function_value(function: Function, values: &[bool]) -> bool
    requires { function.one.0 < length values.now }
    ensures { result ≡ complement_if function.complement (get_or values.now function.one.0 false) }
{
    let value = values[function.one.0];
    if function.complement { !value } else { value }
}

/// The nodes' values by those of the leaves at a point.
fn next_nodes(alloc: Global, net: &Netlist, at: &Point) -> Result<u128, AllocError>
    requires { CanEvaluate net.now }
    ensures { IfOk result (λ nodes. AreNext net.now (levels_of at.now) (bits 128 nodes)) }
{
    let values = values_of(alloc, &net.exprs, last_of(net), at)?;
    let functions = net.nodes.as_slice();
    let mut nodes = 0;
    for node in 0..functions.len() {
        let value = function_value(functions[node], &values);
        nodes = with_value(nodes, node as u8, value);
    }
    Ok(nodes)
}

/// The level of a pair; 0 if there isn't one.
fn pair_level(levels: u32, pair: u8) -> bool
    ensures { pair < 32 → result ≡ is_on (bits 32 levels) pair }
{
    pair < 32 && level_at(levels, pair)
}

/// The levels of pins, or of cells, by those of the pairs that represent them.
fn wired(pairs: &[u8; 25], levels: u32) -> u32
    ensures { AreWired pairs.now levels result }
{
    let mut wires = 0;
    for place in 0..25u8 {
        let on = pair_level(levels, pairs[place as usize]);
        wires = with_level(wires, place, on);
    }
    wires
}

/// The point at which the pairs have these levels, its nodes valued with any as 0.
pub(crate) fn valued_point<D: Device>(
    alloc: Global,
    net: &Netlist,
    levels: u32,
) -> Result<Point, AllocError>
    requires { IsSoundNetlist D.table net.now }
    ensures wired { IfOk result (IsWired net.now levels) }
    ensures valued { IfOk result (λ at. IsValuedFor D.table (plain_netlist net.now) (levels_of at)) }
{
    let mut at = Point {
        pins: wired(&net.pair_of_pin, levels),
        q: wired(&net.pair_of_cell, levels),
        nodes: 0,
    };
    for _turn in 0..net.nodes.as_slice().len() {
        at.nodes = next_nodes(alloc, net, &at)?;
    }
    Ok(at)
}
