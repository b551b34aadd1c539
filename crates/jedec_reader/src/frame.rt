//! The text of a fuse file between its start and end bytes, and its sum.

ghost use Rattle.std.specs.Prelude.{◌≡◌, ◌+◌, ◌<◌, ◌≤◌, ◌==◌, IfOk, IfSome, length, position};
ghost use Rattle.jedec_file.specs.Frame as frame;
ghost use Rattle.jedec_reader.specs.Prelude.{Gives};
ghost use Rattle.jedec_reader.specs.FieldTexts.{framed};

use jedec_file::{JedecFault, byte_sum};

/// The byte that starts the text.
const STX: u8 = 2;

/// The byte that ends the text.
const ETX: u8 = 3;

/// The text between the two bytes, and the place of its first byte.
///
/// The first end byte after the first start byte counts. Takes no memory.
#[tactic(auto, unfolding(jedec_file::specs::Frame::frame_of))]
pub fn frame_of(bytes: &[u8]) -> Result<(usize, &[u8]), JedecFault>
    ensures gives { Gives (λ x. framed x.0 x.1.now) result (frame.frame_of bytes.now) }
    ensures within { IfOk result (λ x. x.0 + length x.1.now ≤ length bytes.now) }
{
    let start = start_of(bytes)?;
    let behind = bytes.split_at(start + 1).1;
    let length = length_of(behind)?;
    let read = sum_at(bytes.split_at(start + length + 2).1)?;
    check_sum(read, bytes.split_at(start).1.split_at(length + 2).0)?;
    Ok((start + 1, behind.split_at(length).0))
}

#[tactic(auto, unfolding(jedec_file::specs::Frame::start_of))]
fn start_of(bytes: &[u8]) -> Result<usize, JedecFault>
    ensures gives { Gives (λ start. start) result (frame.start_of bytes.now) }
    ensures within { IfOk result (λ start. start < length bytes.now) }
{
    match place_of(bytes, STX) {
        Some(start) => Ok(start),
        None => Err(JedecFault::NoStart),
    }
}

#[tactic(auto, unfolding(jedec_file::specs::Frame::length_of))]
fn length_of(behind: &[u8]) -> Result<usize, JedecFault>
    ensures gives { Gives (λ len. len) result (frame.length_of behind.now) }
    ensures within { IfOk result (λ len. len < length behind.now) }
{
    match place_of(behind, ETX) {
        Some(length) => Ok(length),
        None => Err(JedecFault::NoEnd),
    }
}

#[tactic(auto, unfolding(jedec_file::specs::Frame::sum_at))]
fn sum_at(behind: &[u8]) -> Result<u16, JedecFault>
    ensures { Gives (λ read. read) result (frame.sum_at behind.now) }
{
    if behind.len() < 4 {
        return Err(JedecFault::NoEnd);
    }
    match four_hex_value(behind.split_at(4).0) {
        Some(read) => Ok(read),
        None => Err(JedecFault::NoEnd),
    }
}

#[tactic(auto, unfolding(jedec_file::specs::Frame::check_sum))]
fn check_sum(read: u16, bytes: &[u8]) -> Result<u16, JedecFault>
    ensures { Gives (λ checked. checked) result (frame.check_sum read bytes.now) }
{
    let found = byte_sum(bytes);
    if found == read || read == 0 {
        return Ok(read);
    }
    Err(JedecFault::FileSum { read, found })
}

/// The place of the byte first.
pub fn place_of(bytes: &[u8], byte: u8) -> Option<usize>
    ensures place { result ≡ position (λ other. other == byte) bytes.now }
    ensures within { IfSome result (λ place. place < length bytes.now) }
{
    for (place, other) in bytes.iter().enumerate() {
        if *other == byte {
            return Some(place);
        }
    }
    None
}

/// The value of exactly four hexadecimal digits in either case.
pub fn four_hex_value(digits: &[u8]) -> Option<u16>
    ensures { result ≡ frame.four_hex_value digits.now }
{
    let [a, b, c, d] = digits else {
        return None;
    };
    let a = hex_value(*a)?;
    let b = hex_value(*b)?;
    let c = hex_value(*c)?;
    let d = hex_value(*d)?;
    Some(4096 * u16::from(a) + 256 * u16::from(b) + 16 * u16::from(c) + u16::from(d))
}

fn hex_value(digit: u8) -> Option<u8>
    ensures value { result ≡ frame.hex_value digit }
    ensures small { IfSome result (λ value. value < 16) }
{
    match digit {
        b'0'..=b'9' => Some(digit - b'0'),
        b'A'..=b'F' => Some(digit - b'A' + 10),
        b'a'..=b'f' => Some(digit - b'a' + 10),
        _ => None,
    }
}
