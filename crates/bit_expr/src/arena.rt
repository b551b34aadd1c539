//! The arena of bit expressions.

ghost use Rattle.std.specs.Prelude.{◌≡◌, [], ◌<◌, ◌+◌, length, IfOk, IfSome, OnOk, OnErr, option_map, if◌then◌else◌};
ghost use Rattle.pld_base.specs.Points.{Levels, levels_of};
ghost use Rattle.bit_expr.specs.Formulas.{formula_value, names};
ghost use Rattle.bit_expr.specs.Folding.{constant_level, inner_of, make_not, make_and, make_or, make_xor, fresh};
ghost use Rattle.bit_expr.specs.Arena.{arena, formula_at, formula_of, LiesIn, folded, node_value, MOST, Grew, Adds};
ghost use Rattle.bit_expr.specs.Reading.{AreReads};

use crate::fault::ExprFault;
use crate::node::{ExprId, Leaf, Node, leaf_level};
use crate::reads::{Reads, just, nothing, union};
use pld_base::{OutOfMemory, Point};
use std::alloc::Global;
use std::marker::Model;

/// How many nodes `add` makes at most.
const NODES: usize = 262_144;

/// How many constants there are, which count for nothing.
const CONSTANTS: usize = 2;

/// A node beside the leaves that its formula names.
#[derive(Clone, Copy, PartialEq, Eq)]
struct Kept {
    node: Node,
    reads: Reads,
}

/// Bit expressions, folded as they are made. The two constants are in every arena, as ids 0 and 1. Contracts
/// see the list of the nodes after them.
#[derive(Drop)]
pub struct Exprs {
    kept: Vec<Kept>,
}

impl Model for Exprs {
    ghost use Rattle.std.specs.Prelude.{List};
    ghost use Rattle.bit_expr.specs.declared.node.Node.{Node};
    ghost use Rattle.bit_expr.specs.Keeping.{nodes_of, AreKept};

    ghost Value = { List Node };

    ghost view = { λ e. nodes_of e.kept.items };

    ghost invariant = { λ e. AreKept e.kept.items };
}

impl Exprs {
    /// The two constants alone. Takes no memory.
    pub fn new(alloc: Global) -> Exprs
        ensures { result ≡ [] }
    {
        Exprs {
            kept: Vec::new(alloc),
        }
    }

    /// How many nodes were made, the constants not counted. Takes no memory.
    pub fn made(&self) -> usize
        ensures { result ≡ length self.now }
    {
        self.kept.len()
    }

    /// The node of an id, over earlier ids. Takes no memory.
    pub fn get(&self, id: ExprId) -> Node
        requires { id.0 < length (arena self.now) }
        ensures node { formula_of (arena self.now) result ≡ formula_at (arena self.now) id }
        ensures earlier { LiesIn id.0 result }
    {
        if id.0 < CONSTANTS {
            Node::Const(id.0 == 1)
        } else {
            self.kept[id.0 - CONSTANTS].node
        }
    }

    /// The leaves that the bit names, whether or not its value depends on them. Takes no memory, and no longer
    /// for a bit of many nodes.
    pub fn reads(&self, id: ExprId) -> Reads
        requires { id.0 < length (arena self.now) }
        ensures { AreReads (λ leaf. names (formula_at (arena self.now) id) leaf) result }
    {
        if id.0 < CONSTANTS {
            nothing()
        } else {
            self.kept[id.0 - CONSTANTS].reads
        }
    }

    /// The value at a point. Goes down the formula as a tree, so a shared node is met at each of its uses.
    /// Takes no memory.
    pub fn eval(&self, id: ExprId, at: &Point) -> bool
        requires { id.0 < length (arena self.now) }
        ensures { result ≡ formula_value (levels_of at.now) (formula_at (arena self.now) id) }
    {
        match self.get(id) {
            Node::Const(on) => on,
            Node::Leaf(leaf) => leaf_level(leaf, at),
            Node::Not(a) => !self.eval(a, at),
            Node::And(a, b) => self.eval(a, at) && self.eval(b, at),
            Node::Or(a, b) => self.eval(a, at) || self.eval(b, at),
            Node::Xor(a, b) => self.eval(a, at) != self.eval(b, at),
        }
    }

    /// Adds a node by the folding rules, so the answer may be a node that was there.
    pub fn add(&mut self, node: Node) -> Result<ExprId, ExprFault>
        requires { LiesIn (length (arena self.old)) node }
        ensures adds { Adds MOST self.old self.new result (folded (arena self.old) node) }
        ensures inside { IfOk result (λ id. id.0 < length (arena self.new)) }
        ensures value { IfOk result (λ id. (at : Levels) → formula_value at (formula_at (arena self.new) id) ≡ node_value at (arena self.old) node) }
    {
        self.fold(node, NODES)
    }

    /// Folds as `add` does, and isn't bound by the limit.
    pub fn add_more(&mut self, node: Node) -> Result<ExprId, OutOfMemory>
        requires { LiesIn (length (arena self.old)) node }
        ensures formula { IfOk result (λ id. formula_at (arena self.new) id ≡ (folded (arena self.old) node).what) }
        ensures inside { IfOk result (λ id. id.0 < length (arena self.new)) }
        ensures value { IfOk result (λ id. (at : Levels) → formula_value at (formula_at (arena self.new) id) ≡ node_value at (arena self.old) node) }
        ensures grew { OnOk result (Grew (arena self.old) (arena self.new) (folded (arena self.old) node).nodes) }
        ensures unchanged { OnErr result (self.new ≡ self.old) }
    {
        // A node takes at most one more, so that this limit is never passed.
        let count = self.kept.len();
        match self.fold(node, count + 1) {
            Ok(id) => Ok(id),
            Err(ExprFault::NodeLimit) => unreachable!(),
            Err(ExprFault::OutOfMemory) => Err(OutOfMemory),
        }
    }

    /// The level of a constant.
    fn level(&self, id: ExprId) -> Option<bool>
        requires { id.0 < length (arena self.now) }
        ensures { result ≡ constant_level (formula_at (arena self.now) id) }
    {
        match self.get(id) {
            Node::Const(on) => Some(on),
            _ => None,
        }
    }

    /// What a complement is of.
    fn inner(&self, id: ExprId) -> Option<ExprId>
        requires { id.0 < length (arena self.now) }
        ensures formula { option_map (formula_at (arena self.now)) result ≡ inner_of (formula_at (arena self.now) id) }
        ensures earlier { IfSome result (λ inner. inner.0 < id.0) }
    {
        match self.get(id) {
            Node::Not(inner) => Some(inner),
            _ => None,
        }
    }

    /// The leaves that a node names.
    fn reads_of(&self, node: Node) -> Reads
        requires { LiesIn (length (arena self.now)) node }
        ensures { AreReads (λ leaf. names (formula_of (arena self.now) node) leaf) result }
    {
        match node {
            Node::Const(_) => nothing(),
            Node::Leaf(leaf) => just(leaf),
            Node::Not(a) => self.reads(a),
            Node::And(a, b) => union(self.reads(a), self.reads(b)),
            Node::Or(a, b) => union(self.reads(a), self.reads(b)),
            Node::Xor(a, b) => union(self.reads(a), self.reads(b)),
        }
    }

    /// Stores a node that no rule folds.
    fn store(&mut self, node: Node, most: usize) -> Result<ExprId, ExprFault>
        requires { LiesIn (length (arena self.old)) node }
        ensures { Adds (most + 2) self.old self.new result (fresh (formula_of (arena self.old) node)) }
    {
        if self.kept.len() >= most {
            return Err(ExprFault::NodeLimit);
        }
        let reads = self.reads_of(node);
        self.kept.push(Kept { node, reads })?;
        Ok(ExprId(self.kept.len() + 1))
    }

    fn fold_not(&mut self, a: ExprId, most: usize) -> Result<ExprId, ExprFault>
        requires { a.0 < length (arena self.old) }
        ensures { Adds (most + 2) self.old self.new result (make_not (formula_at (arena self.old) a)) }
    {
        if let Some(on) = self.level(a) {
            return Ok(constant(!on));
        }
        match self.inner(a) {
            Some(inner) => Ok(inner),
            None => self.store(Node::Not(a), most),
        }
    }

    fn fold_and(&mut self, a: ExprId, b: ExprId, most: usize) -> Result<ExprId, ExprFault>
        requires a { a.0 < length (arena self.old) }
        requires b { b.0 < length (arena self.old) }
        ensures { Adds (most + 2) self.old self.new result (make_and (formula_at (arena self.old) a) (formula_at (arena self.old) b)) }
    {
        match self.level(a) {
            Some(on) => { if on { Ok(b) } else { Ok(constant(false)) } }
            None => match self.level(b) {
                Some(on) => { if on { Ok(a) } else { Ok(constant(false)) } }
                None => self.store(Node::And(a, b), most),
            },
        }
    }

    fn fold_or(&mut self, a: ExprId, b: ExprId, most: usize) -> Result<ExprId, ExprFault>
        requires a { a.0 < length (arena self.old) }
        requires b { b.0 < length (arena self.old) }
        ensures { Adds (most + 2) self.old self.new result (make_or (formula_at (arena self.old) a) (formula_at (arena self.old) b)) }
    {
        match self.level(a) {
            Some(on) => { if on { Ok(constant(true)) } else { Ok(b) } }
            None => match self.level(b) {
                Some(on) => { if on { Ok(constant(true)) } else { Ok(a) } }
                None => self.store(Node::Or(a, b), most),
            },
        }
    }

    fn fold_xor(&mut self, a: ExprId, b: ExprId, most: usize) -> Result<ExprId, ExprFault>
        requires a { a.0 < length (arena self.old) }
        requires b { b.0 < length (arena self.old) }
        ensures { Adds (most + 2) self.old self.new result (make_xor (formula_at (arena self.old) a) (formula_at (arena self.old) b)) }
    {
        match self.level(a) {
            Some(on) => { if on { self.fold_not(b, most) } else { Ok(b) } }
            None => match self.level(b) {
                Some(on) => { if on { self.fold_not(a, most) } else { Ok(a) } }
                None => self.store(Node::Xor(a, b), most),
            },
        }
    }

    /// Adds a node by the folding rules.
    fn fold(&mut self, node: Node, most: usize) -> Result<ExprId, ExprFault>
        requires { LiesIn (length (arena self.old)) node }
        ensures { Adds (most + 2) self.old self.new result (folded (arena self.old) node) }
    {
        match node {
            Node::Const(on) => Ok(constant(on)),
            Node::Leaf(_) => self.store(node, most),
            Node::Not(a) => self.fold_not(a, most),
            Node::And(a, b) => self.fold_and(a, b, most),
            Node::Or(a, b) => self.fold_or(a, b, most),
            Node::Xor(a, b) => self.fold_xor(a, b, most),
        }
    }
}

/// The id of a constant.
fn constant(on: bool) -> ExprId
    ensures { result.0 ≡ (if on then 1 else 0) }
{
    ExprId(usize::from(on))
}
