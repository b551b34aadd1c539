//! Sources that nest again and again: 64 nestings are read, and the 65th is refused at its opening.

use crate::cases::Case;
use crate::faults::put_refusal;
use crate::parsed::reading;
use crate::sources::place_behind;
use std::alloc::Global;
use test_rows::Found;

const LIMIT: usize = 64;

/// A source that nests: what precedes, what opens one nesting more with its first token, what is inside, what closes
/// one, and what follows.
#[derive(Clone, Copy)]
struct Nest<'a> {
    before: &'a str,
    open: &'a str,
    inside: &'a str,
    close: &'a str,
    behind: &'a str,
}

/// The parts of a text around its four backticks.
fn nest_of(text: &str) -> Option<Nest<'_>> {
    let mut parts = text.split('`');
    Some(Nest {
        before: parts.next()?,
        open: parts.next()?,
        inside: parts.next()?,
        close: parts.next()?,
        behind: parts.next()?,
    })
}

/// Appends a text so many times.
fn put_times(source: &mut Found, times: usize, text: &str) {
    for _ in 0..times {
        source.text(text);
    }
}

/// What precedes the inside of so many nestings.
fn opened(alloc: Global, nest: &Nest, count: usize) -> Found {
    let mut source = Found::new(alloc);
    source.text(nest.before);
    put_times(&mut source, count, nest.open);
    source
}

/// The source with so many nestings.
fn nested(alloc: Global, nest: &Nest, count: usize) -> Found {
    let mut source = opened(alloc, nest, count);
    source.text(nest.inside);
    put_times(&mut source, count, nest.close);
    source.text(nest.behind);
    source
}

/// The case of a row `COUNT SOURCE`, where so many nestings are open before the first backtick.
pub fn limit(alloc: Global, text: &str) -> Option<Case> {
    let (count, text) = text.split_once(' ')?;
    let already = count.parse::<usize>().ok()?;
    let nest = nest_of(text)?;
    let count = LIMIT.saturating_sub(already);
    let front = opened(alloc, &nest, count);
    let mut expected = Found::new(alloc);
    put_refusal(&mut expected, "read, TooDeep", place_behind(front.bytes()));
    let mut found = reading(alloc, nested(alloc, &nest, count).bytes());
    found.text(", ");
    found.put(reading(alloc, nested(alloc, &nest, count.saturating_add(1)).bytes()).bytes());
    Some(Case { expected, found })
}
