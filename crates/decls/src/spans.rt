//! The numbers of a pin declaration.

ghost use Rattle.std.specs.Prelude.{◌≡◌, ◌≤◌, ◌+◌, ◌-◌, ◌<◌, IfOk, OnOk, Bool, List, ℕ, ◌++◌, map, min, not, ◌&&◌, ◌==◌, length, if◌then◌else◌, nat_le};
ghost use Rattle.decls.specs.Prelude.{list_any, range_with_len, count_numbers, numbers_of, span_count, span_numbers, number_at};
ghost use Rattle.decls.specs.Spans.{range_length};

use abel_tree::Span;
use pld_base::OutOfMemory;
use std::alloc::Global;

/// How many numbers a span has.
fn span_count(span: &Span) -> usize
    ensures count { result ≡ span_count span.now.first.value span.now.last }
    ensures small { result ≤ 4294967296 }
{
    match span.last {
        None => 1,
        Some(last) => distance(span.first.value, last.value) as usize + 1,
    }
}

/// How far two numbers are apart.
fn distance(first: u32, last: u32) -> u32
    ensures { result ≡ (if nat_le first last then last - first else first - last) }
{
    if first <= last {
        last - first
    } else {
        first - last
    }
}

/// Whether there are exactly so many numbers.
pub(crate) fn is_count(spans: &[Span], count: u128) -> bool
    ensures { result ≡ (count == count_numbers spans.now) }
{
    let mut room = count;
    for span in spans {
        let here = span_count(span) as u128;
        if room < here {
            return false;
        }
        room -= here;
    }
    room == 0
}

/// The first numbers, so many as there is room for.
pub(crate) fn numbers_in(alloc: Global, room: u128, spans: &[Span]) -> Result<Vec<u32>, OutOfMemory>
    ensures { IfOk result (λ ns. ns.items ≡ numbers_of room spans.now) }
{
    let mut numbers = Vec::new(alloc);
    let mut left = room;
    for span in spans {
        put_span(&mut numbers, left, span)?;
        left = left.saturating_sub(span_count(span) as u128);
    }
    Ok(numbers)
}

/// The numbers of a span, so many as there is room for.
fn put_span(numbers: &mut Vec<u32>, room: u128, span: &Span) -> Result<(), OutOfMemory>
    ensures { OnOk result (numbers.new.items ≡ numbers.old.items ++ span_numbers room span.now.first.value span.now.last) }
{
    match span.last {
        None => {
            numbers.push(span.first.value)?;
            Ok(())
        }
        Some(last) => put_range(numbers, room, span.first.value, last.value),
    }
}

/// The numbers from the first up or down to the last, so many as there is room for.
fn put_range(numbers: &mut Vec<u32>, room: u128, first: u32, last: u32) -> Result<(), OutOfMemory>
    ensures { OnOk result (numbers.new.items ≡ numbers.old.items ++ map (λ k. number_at first last k) (range_with_len 0 (range_length room first last))) }
{
    let end = room.min(u128::from(distance(first, last)) + 1);
    for step in 0..end {
        numbers.push(number_from(first, last, step as u32))?;
    }
    Ok(())
}

/// The number so many steps from the first towards the last.
fn number_from(first: u32, last: u32, step: u32) -> u32
    requires { step ≤ (if nat_le first last then last - first else first - last) }
    ensures { result ≡ number_at first last step }
{
    if first <= last {
        first + step
    } else {
        first - step
    }
}
