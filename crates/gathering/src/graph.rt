//! The graph of signals that read one another.

ghost use Rattle.std.specs.Prelude.{◌≡◌, ◌<◌, ◌≤◌, ◌==◌, ◌&&◌, ◌||◌, ℕ, IfOk, length};
ghost use Rattle.gathering.specs.Prelude.{is_on};
ghost use Rattle.pld_order.specs.Sets.{reads_of};
ghost use Rattle.gathering.specs.{AreLeaves, is_read_by, link_reads, is_stored_in};

use crate::link::{Link, has_if_any};
use bit_expr::Reads;
use pld_base::OutOfMemory;
use pld_order::VertexSet;
use std::alloc::Global;

/// Puts a vertex into the set, if that is asked for.
fn insert_if(set: &mut VertexSet, vertex: u8, asked: bool)
    ensures { (v : ℕ) → is_on set.new v ≡ ((asked && (v == vertex)) || is_on set.old v) }
{
    if asked {
        set.insert(vertex);
    }
}

/// The signals whose leaves are among these.
pub(crate) fn read_by(links: &[Link], reads: &Reads) -> VertexSet
    requires few { length links.now ≤ 256 }
    requires leaves { AreLeaves links.now }
    ensures { (v : ℕ) → v < length links.now → is_on result v ≡ is_read_by reads.now links.now v }
{
    let mut set = VertexSet::new();
    for v in 0..links.len() {
        insert_if(&mut set, v as u8, has_if_any(reads, links[v].leaf));
    }
    set
}

/// The registers.
pub(crate) fn registers(links: &[Link]) -> VertexSet
    requires { length links.now ≤ 256 }
    ensures { (v : ℕ) → v < length links.now → is_on result v ≡ is_stored_in links.now v }
{
    let mut set = VertexSet::new();
    for v in 0..links.len() {
        insert_if(&mut set, v as u8, links[v].stored);
    }
    set
}

/// What each signal reads.
pub(crate) fn read_sets(alloc: Global, links: &[Link]) -> Result<Vec<VertexSet>, OutOfMemory>
    requires few { length links.now ≤ 256 }
    requires leaves { AreLeaves links.now }
    ensures count { IfOk result (λ sets. length sets.items ≡ length links.now) }
    ensures sets { IfOk result (λ sets. (v w : ℕ) → v < length links.now → w < length links.now
        → reads_of sets.items v w ≡ link_reads links.now v w) }
{
    let mut sets = Vec::new(alloc);
    for link in links {
        sets.push(read_by(links, &link.reads))?;
    }
    Ok(sets)
}
