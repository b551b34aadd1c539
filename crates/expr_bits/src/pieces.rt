//! Parts of sums and relations, a few nodes each.

ghost use Rattle.std.specs.Prelude.{◌≡◌, ◌<◌, length};
ghost use Rattle.expr_bits.specs.Prelude.{arena, formula_at, sum_bit, next_carry};
ghost use Rattle.expr_bits.specs.{Makes, ShowsOne, same_of, under_of, upto_of, or_and_of, relation_step, start_id};

use crate::word_operators::{ONE, ZERO};
use bit_expr::{ExprFault, ExprId, Exprs, Node};

/// `x $ y $ carry`
pub(crate) fn sum_bit(
    exprs: &mut Exprs,
    x: ExprId,
    y: ExprId,
    carry: ExprId,
) -> Result<ExprId, ExprFault>
    requires x { x.0 < length (arena exprs.old) }
    requires y { y.0 < length (arena exprs.old) }
    requires carry { carry.0 < length (arena exprs.old) }
    ensures { Makes ShowsOne exprs.old exprs.new result (sum_bit (formula_at (arena exprs.old) x) (formula_at (arena exprs.old) y) (formula_at (arena exprs.old) carry)) }
{
    let differ = exprs.add(Node::Xor(x, y))?;
    exprs.add(Node::Xor(differ, carry))
}

/// `!(x $ y)`
pub(crate) fn same_bit(exprs: &mut Exprs, x: ExprId, y: ExprId) -> Result<ExprId, ExprFault>
    requires x { x.0 < length (arena exprs.old) }
    requires y { y.0 < length (arena exprs.old) }
    ensures { Makes ShowsOne exprs.old exprs.new result (same_of (formula_at (arena exprs.old) x) (formula_at (arena exprs.old) y)) }
{
    let differ = exprs.add(Node::Xor(x, y))?;
    exprs.add(Node::Not(differ))
}

/// `!x & y`
pub(crate) fn under_bit(exprs: &mut Exprs, x: ExprId, y: ExprId) -> Result<ExprId, ExprFault>
    requires x { x.0 < length (arena exprs.old) }
    requires y { y.0 < length (arena exprs.old) }
    ensures { Makes ShowsOne exprs.old exprs.new result (under_of (formula_at (arena exprs.old) x) (formula_at (arena exprs.old) y)) }
{
    let not = exprs.add(Node::Not(x))?;
    exprs.add(Node::And(not, y))
}

/// `!x # y`
pub(crate) fn upto_bit(exprs: &mut Exprs, x: ExprId, y: ExprId) -> Result<ExprId, ExprFault>
    requires x { x.0 < length (arena exprs.old) }
    requires y { y.0 < length (arena exprs.old) }
    ensures { Makes ShowsOne exprs.old exprs.new result (upto_of (formula_at (arena exprs.old) x) (formula_at (arena exprs.old) y)) }
{
    let not = exprs.add(Node::Not(x))?;
    exprs.add(Node::Or(not, y))
}

/// `p # q & other`
pub(crate) fn or_and(
    exprs: &mut Exprs,
    p: ExprId,
    q: ExprId,
    other: ExprId,
) -> Result<ExprId, ExprFault>
    requires p { p.0 < length (arena exprs.old) }
    requires q { q.0 < length (arena exprs.old) }
    requires other { other.0 < length (arena exprs.old) }
    ensures { Makes ShowsOne exprs.old exprs.new result (or_and_of (formula_at (arena exprs.old) p) (formula_at (arena exprs.old) q) (formula_at (arena exprs.old) other)) }
{
    let both = exprs.add(Node::And(q, other))?;
    exprs.add(Node::Or(p, both))
}

/// `x & y # (x # y) & carry`
pub(crate) fn next_carry(
    exprs: &mut Exprs,
    x: ExprId,
    y: ExprId,
    carry: ExprId,
) -> Result<ExprId, ExprFault>
    requires x { x.0 < length (arena exprs.old) }
    requires y { y.0 < length (arena exprs.old) }
    requires carry { carry.0 < length (arena exprs.old) }
    ensures { Makes ShowsOne exprs.old exprs.new result (next_carry (formula_at (arena exprs.old) x) (formula_at (arena exprs.old) y) (formula_at (arena exprs.old) carry)) }
{
    let both = exprs.add(Node::And(x, y))?;
    let either = exprs.add(Node::Or(x, y))?;
    or_and(exprs, both, either, carry)
}

/// What is found of two words, position by position.
#[derive(Clone, Copy, PartialEq, Eq)]
pub(crate) enum Relation {
    Less,
    Equal,
}

impl Relation {
    /// What is found of two words without positions.
    pub(crate) fn start(self) -> ExprId
        ensures { result ≡ start_id self }
    {
        match self {
            Relation::Less => ZERO,
            Relation::Equal => ONE,
        }
    }
}

/// One position more: `!x & y # (!x # y) & found`, or `found & !(x $ y)`.
pub(crate) fn relation_step(
    exprs: &mut Exprs,
    relation: Relation,
    x: ExprId,
    y: ExprId,
    found: ExprId,
) -> Result<ExprId, ExprFault>
    requires x { x.0 < length (arena exprs.old) }
    requires y { y.0 < length (arena exprs.old) }
    requires found { found.0 < length (arena exprs.old) }
    ensures { Makes ShowsOne exprs.old exprs.new result (relation_step relation (formula_at (arena exprs.old) x) (formula_at (arena exprs.old) y) (formula_at (arena exprs.old) found)) }
{
    match relation {
        Relation::Less => {
            let under = under_bit(exprs, x, y)?;
            let upto = upto_bit(exprs, x, y)?;
            or_and(exprs, under, upto, found)
        }
        Relation::Equal => {
            let same = same_bit(exprs, x, y)?;
            exprs.add(Node::And(found, same))
        }
    }
}
