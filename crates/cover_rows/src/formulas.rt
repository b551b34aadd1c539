//! Formulas of a row, and netlists for them.

ghost use Rattle.std.specs.Prelude.{◌≡◌, ◌<◌, ◌≤◌, ℕ, IfSome, length};
ghost use Rattle.bit_expr.specs.Arena.{LiesIn, arena};

use bit_expr::{ExprId, Exprs, Leaf, Netlist, Node};
use pld_base::ListOf;
use std::alloc::Global;

/// A bit over an arena.
#[derive(Drop)]
pub(crate) struct Formula {
    pub(crate) exprs: Exprs,
    pub(crate) bit: ExprId,
    ghost inside: { bit.0 < length (arena exprs) },
}

// Pins 1 to 12 on pairs 0 to 11, and cell 3 on pair 12.
const PAIR_OF_PIN: [u8; 25] =
    *b"\xff\x00\x01\x02\x03\x04\x05\x06\x07\x08\x09\x0a\x0b\xff\xff\xff\xff\xff\xff\xff\xff\xff\xff\xff\xff";

const PAIR_OF_CELL: [u8; 25] =
    *b"\xff\xff\xff\x0c\xff\xff\xff\xff\xff\xff\xff\xff\xff\xff\xff\xff\xff\xff\xff\xff\xff\xff\xff\xff\xff";

/// A netlist of these formulas, without nodes and cells.
pub(crate) fn netlist(alloc: Global, exprs: Exprs) -> Netlist
    ensures { result.exprs ≡ exprs }
{
    Netlist {
        exprs,
        nodes: ListOf::from_vec(Vec::new(alloc)),
        cells: ListOf::from_vec(Vec::new(alloc)),
        pair_of_pin: PAIR_OF_PIN,
        pair_of_cell: PAIR_OF_CELL,
    }
}

/// The leaf or the constant of a letter: a to l are pins 1 to 12, q is the Q of cell 3.
fn node_of(letter: u8) -> Node
    ensures { (n : ℕ) → LiesIn n result }
{
    match letter {
        b'a'..=b'l' => Node::Leaf(Leaf::Pin(letter - b'a' + 1)),
        b'q' => Node::Leaf(Leaf::Q(3)),
        b'1' => Node::Const(true),
        _ => Node::Const(false),
    }
}

/// The bit of a letter, or its complement.
fn literal(exprs: &mut Exprs, letter: u8, is_complement: bool) -> Option<ExprId>
    ensures inside { IfSome result (λ id. id.0 < length (arena exprs.new)) }
    ensures grows { IfSome result (λ id. length (arena exprs.old) ≤ length (arena exprs.new)) }
{
    let leaf = exprs.add(node_of(letter)).ok()?;
    if is_complement {
        exprs.add(Node::Not(leaf)).ok()
    } else {
        Some(leaf)
    }
}

/// What a sign makes of two bits.
fn joined(sign: u8, left: ExprId, right: ExprId) -> Node
    ensures { (n : ℕ) → left.0 < n → right.0 < n → LiesIn n result }
{
    match sign {
        b'&' => Node::And(left, right),
        b'#' => Node::Or(left, right),
        _ => Node::Xor(left, right),
    }
}

/// The formula of a text of letters, each perhaps after `!`, with `&`, `#` and `$` between them from the left.
#[tactic(auto, using(bit_expr::proofs::ArenaLists::arena_count))]
pub(crate) fn formula_of(alloc: Global, text: &str) -> Option<Formula> {
    let mut exprs = Exprs::new(alloc);
    let mut bit = ExprId(0);
    let mut sign = b'#';
    let mut is_complement = false;
    for byte in text.bytes() {
        match byte {
            b' ' => {}
            b'!' => is_complement = true,
            b'&' | b'#' | b'$' => sign = byte,
            letter => {
                let next = literal(&mut exprs, letter, is_complement)?;
                bit = exprs.add(joined(sign, bit, next)).ok()?;
                is_complement = false;
            }
        }
    }
    Some(Formula { exprs, bit })
}
