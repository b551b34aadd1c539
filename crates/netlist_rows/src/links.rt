//! Links of a row: signals with the leaves that they read.

ghost use Rattle.std.specs.Prelude.{◌<◌, ◌≤◌, All, IfSome, length};
ghost use Rattle.netlist_rows.specs.Prelude.{IsLeaf};
ghost use Rattle.netlist_rows.specs.Leaves.{HasLeaf};

use bit_expr::{Leaf, Reads};
use gathering::Link;
use std::alloc::Global;

const NOTHING: Reads = Reads {
    pins: 0,
    q: 0,
    nodes: 0,
};

/// The leaf of a word: `p12` is pin 12, `q3` the Q of cell 3, `n0` node 0.
fn leaf_of(word: &str) -> Option<Leaf>
    ensures { IfSome result IsLeaf }
{
    let (kind, number) = word.split_at_checked(1)?;
    let number = number.parse::<u8>().ok()?;
    if number >= 32 {
        return None;
    }
    match kind {
        "p" => Some(Leaf::Pin(number)),
        "q" => Some(Leaf::Q(number)),
        "n" => Some(Leaf::Node(number)),
        _ => None,
    }
}

/// The leaves of words between commas.
pub(crate) fn reads_of(words: &str) -> Option<Reads> {
    let mut reads = NOTHING;
    for word in words.split(',') {
        match leaf_of(word)? {
            Leaf::Pin(pin) => reads.pins |= 1 << pin,
            Leaf::Q(cell) => reads.q |= 1 << cell,
            Leaf::Node(node) => reads.nodes |= 1 << node,
        }
    }
    Some(reads)
}

/// A signal with no leaf, `-`, or a leaf; after `<` is what it reads. The Q of a cell is that of a register.
fn link_of(word: &str) -> Option<Link>
    ensures { IfSome result HasLeaf }
{
    let (name, reads) = match word.split_once('<') {
        Some((name, reads)) => (name, reads_of(reads)?),
        None => (word, NOTHING),
    };
    Some(Link {
        leaf: leaf_of(name),
        reads,
        stored: name.starts_with('q'),
    })
}

/// The signals of words between blanks; None for more than 256.
pub(crate) fn links_of(alloc: Global, text: &str) -> Option<Vec<Link>>
    ensures leaves { IfSome result (λ links. All HasLeaf links.items) }
    ensures few { IfSome result (λ links. length links.items ≤ 256) }
{
    let mut links = Vec::new(alloc);
    for word in text.split_whitespace() {
        links.push(link_of(word)?).ok()?;
    }
    if links.len() > 256 {
        return None;
    }
    Some(links)
}
