//! The names of a range.

ghost use Rattle.std.specs.Prelude.{◌≡◌, ◌≤◌, ◌-◌, Option, Some, None, IfOk, IfSome, if◌then◌else◌, option_map, map, length, ◌++◌, nat_le, bytes_eq, [], ◌∷◌};
ghost use Rattle.std.specs.Fmt.{decimal};
ghost use Rattle.abel_tree.specs.Ranges.{last_digits, stem, is_run, number_of, range_names, ends_agree, numbers_between, is_bad, item_names};
ghost use Rattle.name_uses.specs.RangeParts.{end_number, number_at, names_if_agree, name_items};

use abel_tree::Item;
use pld_base::{OutOfMemory, put_decimal};
use std::alloc::Global;

/// How many digits are at the end of a name.
fn digits_at_end(name: &[u8]) -> usize
    ensures count { result ≡ length (last_digits name.now) }
    ensures within { result ≤ length name.now }
{
    let mut count = 0usize;
    for c in name {
        count = if b'0' <= *c && *c <= b'9' {
            count + 1
        } else {
            0
        };
    }
    count
}

/// What a decimal digit counts.
fn digit(c: u8) -> u32
    ensures value { result ≡ c - 48 }
    ensures small { result ≤ 207 }
{
    u32::from(c.saturating_sub(b'0'))
}

/// The number that one to four digits without a needless zero write.
fn run_value(digits: &[u8]) -> Option<u32>
    ensures small { IfSome result (λ n. n ≤ 1000000) }
    ensures value { result ≡ (if is_run digits.now then Some (number_of digits.now) else None) }
{
    match digits {
        [a] => Some(digit(*a)),
        [b'0', ..] => None,
        [a, b] => Some(10 * digit(*a) + digit(*b)),
        [a, b, c] => Some(10 * (10 * digit(*a) + digit(*b)) + digit(*c)),
        [a, b, c, d] => Some(10 * (10 * (10 * digit(*a) + digit(*b)) + digit(*c)) + digit(*d)),
        _ => None,
    }
}

/// What precedes the digits at the end of a name.
fn stem_of(name: &[u8]) -> &[u8]
    ensures { result.now ≡ stem name.now }
{
    &name[..name.len() - digits_at_end(name)]
}

/// The number that the digits at the end of a name write, if they are one to four without a needless zero.
fn end_value(name: &[u8]) -> Option<u32>
    ensures value { result ≡ end_number name.now }
    ensures small { IfSome result (λ n. n ≤ 1000000) }
{
    run_value(&name[name.len() - digits_at_end(name)..])
}

/// A name of a range by its number.
fn name_with(alloc: Global, stem: &[u8], number: u32) -> Result<Vec<u8>, OutOfMemory>
    ensures { IfOk result (λ n. n.items ≡ stem.now ++ decimal number) }
{
    let mut name = Vec::from_slice(alloc, stem)?;
    put_decimal(alloc, &mut name, number as usize)?;
    Ok(name)
}

/// The number at a place of a range.
fn number_in(first: u32, last: u32, place: u32) -> u32
    requires first { first ≤ 1000000 }
    requires last { last ≤ 1000000 }
    requires place { place ≤ 1000000 }
    ensures { result ≡ number_at first last place }
{
    if first <= last {
        first + place
    } else {
        first.saturating_sub(place)
    }
}

/// How many steps a range has.
fn steps_between(first: u32, last: u32) -> u32
    requires first { first ≤ 1000000 }
    requires last { last ≤ 1000000 }
    ensures steps { result ≡ (if nat_le first last then last - first else first - last) }
    ensures small { result ≤ 1000000 }
{
    if first <= last {
        last - first
    } else {
        first - last
    }
}

/// Whether two names are the same bytes.
fn is_same(one: &[u8], other: &[u8]) -> bool
    ensures { result ≡ bytes_eq one.now other.now }
{
    one == other
}

/// All names with this stem from the first number up or down to the last.
fn names_with(
    alloc: Global,
    stem: &[u8],
    first: u32,
    last: u32,
) -> Result<Vec<Vec<u8>>, OutOfMemory>
    requires first { first ≤ 1000000 }
    requires last { last ≤ 1000000 }
    ensures { IfOk result (λ ns. map name_items ns.items ≡ map (λ k. stem.now ++ decimal k) (numbers_between first last)) }
{
    let mut names = Vec::new(alloc);
    for place in 0..steps_between(first, last) + 1 {
        names.push(name_with(alloc, stem, number_in(first, last, place))?)?;
    }
    Ok(names)
}

/// All names from the first up or down to the last, if the ends of the range agree.
pub fn names_of_range(
    alloc: Global,
    first: &[u8],
    last: &[u8],
) -> Result<Option<Vec<Vec<u8>>>, OutOfMemory>
    ensures { IfOk result (λ o. option_map (λ ns. map name_items ns.items) o ≡ names_if_agree first.now last.now) }
{
    let Some(from) = end_value(first) else {
        return Ok(None);
    };
    let Some(to) = end_value(last) else {
        return Ok(None);
    };
    if is_same(stem_of(first), stem_of(last)) {
        let names = names_with(alloc, stem_of(first), from, to)?;
        return Ok(Some(names));
    }
    Ok(None)
}

/// Whether an item of a declaration is a range whose ends don't agree. Takes no memory.
pub fn is_bad_item(item: &Item) -> bool
    ensures { result ≡ is_bad item.now }
{
    match &item.last {
        Some(last) => !do_agree(item.first.text.bytes(), last.text.bytes()),
        None => false,
    }
}

/// Whether the ends of a range agree.
fn do_agree(first: &[u8], last: &[u8]) -> bool
    ensures { result ≡ ends_agree first.now last.now }
{
    ends_in_run(first) && (ends_in_run(last) && is_same(stem_of(first), stem_of(last)))
}

/// Whether the digits at the end of a name are one to four without a needless zero.
fn ends_in_run(name: &[u8]) -> bool
    ensures { result ≡ is_run (last_digits name.now) }
{
    end_value(name).is_some()
}

/// How many names an item of a declaration has, none if it is a range whose ends don't agree. Takes no memory.
pub fn item_count(item: &Item) -> usize
    ensures { result ≡ length (item_names item.now) }
{
    match &item.last {
        Some(last) => range_count(item.first.text.bytes(), last.text.bytes()),
        None => 1,
    }
}

/// How many names a range has, none if its ends don't agree.
fn range_count(first: &[u8], last: &[u8]) -> usize
    ensures { result ≡ length (range_names first.now last.now) }
{
    let Some(from) = end_value(first) else {
        return 0;
    };
    let Some(to) = end_value(last) else {
        return 0;
    };
    let has_names = is_same(stem_of(first), stem_of(last));
    if has_names {
        steps_between(from, to) as usize + 1
    } else {
        0
    }
}

/// The names of an item of a declaration, none if it is a range whose ends don't agree.
pub fn item_list(alloc: Global, item: &Item) -> Result<Vec<Vec<u8>>, OutOfMemory>
    ensures { IfOk result (λ names. map name_items names.items ≡ item_names item.now) }
{
    match &item.last {
        Some(last) => range_list(alloc, item.first.text.bytes(), last.text.bytes()),
        None => one_name(alloc, item.first.text.bytes()),
    }
}

/// A list of one name.
fn one_name(alloc: Global, name: &[u8]) -> Result<Vec<Vec<u8>>, OutOfMemory>
    ensures { IfOk result (λ ns. map name_items ns.items ≡ name.now ∷ []) }
{
    let mut names = Vec::new(alloc);
    names.push(Vec::from_slice(alloc, name)?)?;
    Ok(names)
}

#[tactic(auto, using(crate::proofs::Listed::listed, crate::proofs::Listed::none_listed))]
/// All names from the first up or down to the last, none if the ends of the range don't agree.
pub fn range_list(alloc: Global, first: &[u8], last: &[u8]) -> Result<Vec<Vec<u8>>, OutOfMemory>
    ensures { IfOk result (λ names. map name_items names.items ≡ range_names first.now last.now) }
{
    match names_of_range(alloc, first, last)? {
        Some(names) => Ok(names),
        None => Ok(Vec::new(alloc)),
    }
}
