//! What a design asks of the cells and nodes of a device, over the arena.

use crate::arena::Exprs;
use crate::node::ExprId;
use pld_base::{ListOf, Place};

/// If a signal is 1, and if it may be either; of its complement, where `complement` says so.
#[derive(Clone, Copy, PartialEq, Eq)]
pub struct Function {
    pub one: ExprId,
    pub any: ExprId,
    pub complement: bool,
}

/// An enable, a reset or a preset, with the place of its first target in the expanded text.
#[derive(Clone, Copy, PartialEq, Eq)]
pub struct Control {
    pub bit: ExprId,
    pub place: Place,
}

/// What is asked of an assigned cell. `name` is the signal's number in the order of declaration, `place` its first data
/// target. `negated` says that the name is the complement of the pin, `buffer` that the pin equals Q, and `raw` that
/// the function is of the register's input itself. If a register is `free`, its pin may as well equal the complement of
/// a Q that is stored so; its `buffer` is true. A register without a reset or preset of its own has that of the
/// register of least `name` that has one, else 0.
#[derive(Clone, Copy, PartialEq, Eq)]
pub struct CellWanted {
    pub cell: u8,
    pub name: usize,
    pub place: Place,
    pub registered: bool,
    pub buffer: bool,
    pub negated: bool,
    pub raw: bool,
    pub free: bool,
    pub function: Function,
    pub enable: Option<Control>,
    pub reset: Option<Control>,
    pub preset: Option<Control>,
}

/// Bit expressions with the functions of the nodes, from node 0, and of the assigned cells. `pair_of_pin` has at p the
/// pair of columns that carries pin p or the cell on it, `pair_of_cell` at c the pair that carries cell c, and 255 if
/// there isn't one.
#[derive(Drop)]
pub struct Netlist {
    pub exprs: Exprs,
    pub nodes: ListOf<Function>,
    pub cells: ListOf<CellWanted>,
    pub pair_of_pin: [u8; 25],
    pub pair_of_cell: [u8; 25],
}
