//! Words of a few positions: each call once.

ghost use Rattle.std.specs.Prelude.{◌<◌};

use crate::places::put_blank;
use abel_tree::{Binary, Unary};
use bit_expr::{ExprId, Exprs, Leaf, Node};
use expr_bits::{
    Bits, Compared, Form, complement_word, difference_word, digit_word, dropped, kept_relation,
    kept_word, meet_word, operator_word, relation_word, resized_word, spread_word, unary_word,
    width_of_both,
};
use pld_base::{ListOf, Point};
use std::alloc::Global;
use test_rows::Found;

/// Pin 0 alone is high.
const HERE: Point = Point {
    pins: 1,
    q: 0,
    nodes: 0,
};

/// The id of a bit that is no constant.
const BIT: ExprId = ExprId(2);

/// Whether the bit of pin 1 is less than that of pin 0.
fn is_less(alloc: Global) -> Option<bool> {
    let mut exprs = Exprs::new(alloc);
    let a = exprs.add(Node::Leaf(Leaf::Pin(0))).ok()?;
    let b = exprs.add(Node::Leaf(Leaf::Pin(1))).ok()?;
    match relation_word(alloc, &mut exprs, Binary::Less, &[b], &[a]) {
        Ok(less) => Some(exprs.eval(less, &HERE)),
        Err(_) => None,
    }
}

/// Whether the bit of pin 0 equals itself.
fn is_equal(alloc: Global) -> Option<bool> {
    let mut exprs = Exprs::new(alloc);
    let a = exprs.add(Node::Leaf(Leaf::Pin(0))).ok()?;
    match relation_word(alloc, &mut exprs, Binary::Equal, &[a], &[a]) {
        Ok(equal) => Some(exprs.eval(equal, &HERE)),
        Err(_) => None,
    }
}

/// Whether two bits are equal of which the only position is dropped, as an id.
fn dropped_relation(alloc: Global) -> Option<Vec<ExprId>> {
    let mut exprs = Exprs::new(alloc);
    let a = exprs.add(Node::Leaf(Leaf::Pin(0))).ok()?;
    let b = exprs.add(Node::Leaf(Leaf::Pin(1))).ok()?;
    let words = Compared {
        dropped: &[true],
        first: &[a],
        second: &[b],
    };
    match kept_relation(alloc, &mut exprs, Binary::Equal, &words) {
        Ok(equal) => Vec::from_slice(alloc, &[equal]).ok(),
        Err(_) => None,
    }
}

/// What an operator makes of words of the bit of pin 0.
fn made_word(alloc: Global, text: &str) -> Option<Vec<ExprId>> {
    let mut exprs = Exprs::new(alloc);
    let a = exprs.add(Node::Leaf(Leaf::Pin(0))).ok()?;
    let made = match text {
        "[a,a] + [a,a]" => operator_word(alloc, &mut exprs, Binary::Plus, &[a, a], &[a, a]),
        "a - a" => difference_word(alloc, &mut exprs, &[a], &[a]),
        "![a,a,a]" => complement_word(alloc, &mut exprs, &[a, a, a]),
        "-a" => unary_word(alloc, &mut exprs, Unary::Minus, &[a]),
        _ => unary_word(alloc, &mut exprs, Unary::Not, &[a]),
    };
    made.ok()
}

/// The word of a text, in which a represents a bit that is no constant.
fn word(alloc: Global, text: &str) -> Option<Vec<ExprId>> {
    let made = match text {
        "5 in 4" => digit_word(alloc, 5, 4),
        "a in 2" => resized_word(alloc, &[BIT], 2),
        "5 in 4, cut to 1" => {
            let whole = digit_word(alloc, 5, 4).ok()?;
            resized_word(alloc, whole.as_slice(), 1)
        }
        "a at each of 3" => spread_word(alloc, BIT, 3),
        "[a,1] without its right position" => kept_word(alloc, &[true, false], &[ExprId(1), BIT]),
        _ => return dropped_relation(alloc),
    };
    made.ok()
}

fn put_ids(word: &[ExprId], found: &mut Found) {
    for id in word {
        put_blank(found);
        found.number(id.0);
    }
}

/// One bit, which is X.
fn one_bit(alloc: Global) -> Option<Bits> {
    Some(Bits {
        form: Form::Single,
        word: ListOf::from_vec(Vec::from_slice(alloc, &[ExprId(1)]).ok()?),
        unknown: ListOf::from_vec(Vec::from_slice(alloc, &[true]).ok()?),
    })
}

/// One bit that is X beside the number 2: the positions in which both meet, and in which two numbers do, whether the
/// position of the bit is dropped, and the number in two positions.
fn put_meeting(alloc: Global, found: &mut Found) -> Option<()> {
    let bit = one_bit(alloc)?;
    let number = Bits {
        form: Form::Number(2),
        word: ListOf::from_vec(Vec::new(alloc)),
        unknown: ListOf::from_vec(Vec::new(alloc)),
    };
    found.number(width_of_both(&bit, &number));
    found.text(" ");
    found.number(width_of_both(&number, &number));
    for is_dropped in dropped(alloc, &bit, &number, 1).ok()?.as_slice() {
        found.text(if *is_dropped { " dropped" } else { " kept" });
    }
    put_ids(meet_word(alloc, &number, 2).ok()?.as_slice(), found);
    Some(())
}

fn put_level(level: bool, found: &mut Found) {
    found.text(if level { "1" } else { "0" })
}

/// Puts what results from a case.
pub(crate) fn ask(alloc: Global, question: &str, text: &str, found: &mut Found) -> Option<()> {
    match question {
        "levels" => match text {
            "b < a" => put_level(is_less(alloc)?, found),
            _ => put_level(is_equal(alloc)?, found),
        },
        "widths" => found.number(made_word(alloc, text)?.len()),
        "ids" => put_ids(word(alloc, text)?.as_slice(), found),
        _ => return put_meeting(alloc, found),
    }
    Some(())
}
