//! Small graphs are ordered, and searched for loops and paths.

ghost use Rattle.std.specs.Prelude.{IfSome, ◌≤◌, length};

use crate::asked::{Ask, ask_rows};
use crate::texts::{fields_of, put_numbers};
use pld_order::{VertexSet, order, path};
use std::alloc::Global;
use test_rows::{Found, Report, Section};

/// The two vertices of a pair, the first of which reads the second.
fn pair_of(told: &str) -> Option<(u8, u8)> {
    let (from, to) = told.split_once('>')?;
    match (from.parse::<u8>(), to.parse::<u8>()) {
        (Ok(from), Ok(to)) => Some((from, to)),
        _ => None,
    }
}

/// The set that a vertex reads.
fn read_by(vertex: usize, pairs: &str) -> VertexSet {
    let mut set = VertexSet::new();
    for pair in pairs.split_whitespace() {
        match pair_of(pair) {
            Some((from, to)) if usize::from(from) == vertex => set.insert(to),
            _ => {}
        }
    }
    set
}

/// The sets that so many vertices read.
fn sets_of(alloc: Global, count: &str, pairs: &str) -> Option<Vec<VertexSet>>
    ensures { IfSome result (λ sets. length sets.items ≤ 256) }
{
    let mut sets = Vec::new(alloc);
    for vertex in 0..count.parse::<u8>().unwrap_or(0) {
        if sets.push(read_by(usize::from(vertex), pairs)).is_err() {
            return None;
        }
    }
    if sets.len() <= 256 { Some(sets) } else { None }
}

/// The set of these vertices.
fn set_of(vertices: &str) -> VertexSet {
    let mut set = VertexSet::new();
    for word in vertices.split_whitespace() {
        if let Ok(vertex) = word.parse::<u8>() {
            set.insert(vertex);
        }
    }
    set
}

/// What is asked of a graph.
#[derive(Clone, Copy)]
enum Graph {
    Order,
    Path,
}

/// Appends the order of vertices, or their loop.
fn put_order(sets: &[VertexSet], found: &mut Found)
    requires { length sets.now ≤ 256 }
{
    match order(sets) {
        Ok(vertices) => put_numbers(vertices.as_slice(), found),
        Err(around) => {
            found.text("loop ");
            put_numbers(around.vertices.as_slice(), found);
        }
    }
}

/// Appends a path.
fn put_path(sets: &[VertexSet], starts: &str, ends: &str, found: &mut Found)
    requires { length sets.now ≤ 256 }
{
    match path(sets, &set_of(starts), &set_of(ends)) {
        Some(vertices) => put_numbers(vertices.as_slice(), found),
        None => found.text("none"),
    }
}

impl Ask for Graph {
    fn answer(&mut self, alloc: Global, input: &str, found: &mut Found) {
        let [_what, count, pairs, starts, ends] = fields_of(input);
        let Some(sets) = sets_of(alloc, count, pairs) else {
            return found.text("no graph");
        };
        match *self {
            Graph::Order => put_order(&sets, found),
            Graph::Path => put_path(&sets, starts, ends, found),
        }
    }
}

/// Asks graphs what a section's name says.
pub fn ask_graphs(alloc: Global, section: &Section<'_>, report: &mut Report<'_>) -> bool {
    let name = section.name;
    let mut asked = if name == "orders of graphs" || name == "loops of graphs" {
        Graph::Order
    } else if name == "paths through graphs" {
        Graph::Path
    } else {
        return false;
    };
    ask_rows(alloc, section.rows.as_slice(), &mut asked, report);
    true
}
