//! Numbers as decimal and hexadecimal digits.

ghost use Rattle.std.specs.Prelude.{◌≡◌, ◌<◌, ◌++◌, OnOk};
ghost use Rattle.std.specs.Fmt.{decimal};
ghost use Rattle.pld_base.specs.Digits.{four_digits, four_hex, hex_digit};

use crate::out_of_memory::OutOfMemory;
use std::alloc::Global;

/// Appends a number in decimal, without leading zeros.
pub fn put_decimal(alloc: Global, out: &mut Vec<u8>, number: usize) -> Result<(), OutOfMemory>
    ensures { OnOk result (out.new.items ≡ out.old.items ++ decimal number) }
{
    let text = number.to_string(alloc)?;
    out.extend_from_slice(text.as_bytes())?;
    Ok(())
}

/// Appends a number's last four decimal digits.
pub fn put_four_digits(out: &mut Vec<u8>, number: u16) -> Result<(), OutOfMemory>
    ensures { OnOk result (out.new.items ≡ out.old.items ++ four_digits number) }
{
    let digits = [
        b'0' + (number / 1000 % 10) as u8,
        b'0' + (number / 100 % 10) as u8,
        b'0' + (number / 10 % 10) as u8,
        b'0' + (number % 10) as u8,
    ];
    out.extend_from_slice(&digits)?;
    Ok(())
}

/// A hexadecimal digit, in upper case. Takes no memory.
fn hex(digit: u8) -> u8
    requires { digit < 16 }
    ensures { result ≡ hex_digit digit }
{
    if digit < 10 {
        b'0' + digit
    } else {
        b'A' - 10 + digit
    }
}

/// Appends a number as four hexadecimal digits in upper case, as sums are in fuse files and reports.
pub fn put_hex(out: &mut Vec<u8>, number: u16) -> Result<(), OutOfMemory>
    ensures { OnOk result (out.new.items ≡ out.old.items ++ four_hex number) }
{
    let digits = [
        hex((number / 4096 % 16) as u8),
        hex((number / 256 % 16) as u8),
        hex((number / 16 % 16) as u8),
        hex((number % 16) as u8),
    ];
    out.extend_from_slice(&digits)?;
    Ok(())
}
