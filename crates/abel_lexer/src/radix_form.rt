//! The `@RADIX` form.

ghost use Rattle.std.specs.Prelude.{◌≡◌, ◌≤◌, ◌==◌, true, false, length, take, drop, Some, None, IfSome, IfNone};
ghost use Rattle.std.specs.Str.{str_eq_ignore_ascii_case};
ghost use Rattle.abel_lexer.specs.Bytes.{starts};
ghost use Rattle.abel_lexer.specs.Lengths as spec;
ghost use Rattle.abel_lexer.specs.Numbers.{is_radix};

use crate::length::{blank_len, first_six, number_len};
use crate::number::number_value;

/// What follows the blanks at the front.
fn behind_blanks(bytes: &[u8]) -> &[u8]
    ensures { result.now ≡ spec.behind_blanks bytes.now }
{
    bytes.split_at(blank_len(bytes)).1
}

/// What follows `@RADIX`.
#[tactic(auto, unfolding(crate::specs::Lengths::behind_radix_word), using(crate::proofs::RadixForms::short_word))]
fn behind_radix_word(bytes: &[u8]) -> Option<&[u8]>
    ensures some { IfSome result (λ r. spec.behind_radix_word bytes.now ≡ Some r.now) }
    ensures none { IfNone result (spec.behind_radix_word bytes.now ≡ None) }
{
    if !first_six(bytes).eq_ignore_ascii_case(b"@RADIX") {
        return None;
    }
    match bytes {
        [_, _, _, _, _, _, rest @ ..] => Some(rest),
        _ => None,
    }
}

/// What follows a `;`.
fn behind_semicolon(bytes: &[u8]) -> Option<&[u8]>
    ensures some { IfSome result (λ r. spec.behind_semicolon bytes.now ≡ Some r.now) }
    ensures none { IfNone result (spec.behind_semicolon bytes.now ≡ None) }
{
    match bytes {
        [b';', rest @ ..] => Some(rest),
        _ => None,
    }
}

/// Whether `@RADIX` may set this radix.
pub fn is_radix(value: u32) -> bool
    ensures { result ≡ is_radix value }
{
    matches!(value, 2 | 8 | 10 | 16)
}

/// The radix that a number says, if `@RADIX` may set it.
#[tactic(auto, unfolding(crate::specs::Lengths::known_radix))]
fn known_radix(radix: u32, number: &[u8]) -> Option<u32>
    requires low { 2 ≤ radix }
    requires high { radix ≤ 16 }
    ensures some { IfSome result (λ n. spec.known_radix radix number.now ≡ Some n) }
    ensures within { IfSome result (λ n. (2 ≤ n) × (n ≤ 16)) }
    ensures none { IfNone result (spec.known_radix radix number.now ≡ None) }
{
    let value = number_value(radix, number)?;
    if is_radix(value) { Some(value) } else { None }
}

/// The radix that the number at the front sets if a `;` follows, and what follows that.
#[tactic(auto, unfolding(crate::specs::Lengths::radix_set), using(crate::proofs::Longest::number_fits))]
fn radix_set(radix: u32, bytes: &[u8]) -> Option<(u32, &[u8])>
    requires low { 2 ≤ radix }
    requires high { radix ≤ 16 }
    ensures some { IfSome result (λ s. spec.radix_set radix bytes.now ≡ Some (s.0, s.1.now)) }
    ensures within { IfSome result (λ s. (2 ≤ s.0) × (s.0 ≤ 16)) }
    ensures none { IfNone result (spec.radix_set radix bytes.now ≡ None) }
{
    let (number, behind) = bytes.split_at(number_len(bytes));
    let value = known_radix(radix, number)?;
    let rest = behind_semicolon(behind_blanks(behind))?;
    Some((value, rest))
}

/// The radix that the `@RADIX` form at the front sets, and what follows it.
#[tactic(auto, unfolding(crate::specs::Lengths::radix_at))]
pub fn radix_at(radix: u32, bytes: &[u8]) -> Option<(u32, &[u8])>
    requires low { 2 ≤ radix }
    requires high { radix ≤ 16 }
    ensures some { IfSome result (λ s. spec.radix_at radix bytes.now ≡ Some (s.0, s.1.now)) }
    ensures within { IfSome result (λ s. (2 ≤ s.0) × (s.0 ≤ 16)) }
    ensures none { IfNone result (spec.radix_at radix bytes.now ≡ None) }
{
    let behind = behind_radix_word(bytes)?;
    radix_set(radix, behind_blanks(behind))
}
