//! What a number says.

ghost use Rattle.std.specs.Prelude.{◌≡◌, ◌+◌, ◌*◌, ◌^◌, ◌≤◌, ◌⊎◌, true, false, IfSome, IfNone};
ghost use Rattle.std.specs.Char.{digit_value, is_digit};
ghost use Rattle.std.specs.Str.Parse.{digits_value};
ghost use Rattle.abel_lexer.specs.Numbers as spec;

/// The radix that the letter after `^` names.
fn marked_radix(letter: u8) -> u32
    ensures value { result ≡ spec.marked_radix letter }
    ensures low { 2 ≤ result }
    ensures high { result ≤ 16 }
{
    match letter.to_ascii_lowercase() {
        b'b' => 2,
        b'o' => 8,
        b'h' => 16,
        _ => 10,
    }
}

/// A number with one more digit after it, if this is one of the radix and it stays below 2 to the 32.
fn with_digit(radix: u32, value: u32, digit: u8) -> Option<u32>
    requires low { 2 ≤ radix }
    requires high { radix ≤ 16 }
    ensures value { IfSome result (λ n. n ≡ value * radix + digit_value digit) }
    ensures good { IfSome result (λ n. is_digit digit radix ≡ true) }
    ensures refused { IfNone result ((is_digit digit radix ≡ false) ⊎ (2 ^ 32 ≤ value * radix + digit_value digit)) }
{
    let digit = char::from(digit).to_digit(radix)?;
    value.checked_mul(radix)?.checked_add(digit)
}

/// The value of digits of a radix, if they are some and their value is below 2 to the 32.
#[tactic(auto, using(crate::proofs::Values::good_digits, crate::proofs::Values::bad_digits))]
fn digits_value(radix: u32, bytes: &[u8]) -> Option<u32>
    requires low { 2 ≤ radix }
    requires high { radix ≤ 16 }
    ensures value { IfSome result (λ n. n ≡ digits_value radix bytes.now) }
    ensures good { IfSome result (λ n. spec.are_good_digits radix bytes.now ≡ true) }
    ensures refused { IfNone result (spec.are_good_digits radix bytes.now ≡ false) }
{
    let mut value = 0;
    for byte in bytes {
        value = with_digit(radix, value, *byte)?;
    }
    Some(value)
}

/// What a number says if a radix is in force, if its digits are some of its radix and the value is
/// below 2 to the 32.
pub fn number_value(radix: u32, word: &[u8]) -> Option<u32>
    requires low { 2 ≤ radix }
    requires high { radix ≤ 16 }
    ensures value { IfSome result (λ n. n ≡ spec.number_value radix word.now) }
    ensures good { IfSome result (λ n. spec.is_good_number radix word.now ≡ true) }
    ensures refused { IfNone result (spec.is_good_number radix word.now ≡ false) }
{
    match word {
        [b'^', letter, digits @ ..] => digits_value(marked_radix(*letter), digits),
        _ => digits_value(radix, word),
    }
}
