//! The header of a fuse file, and the name in it.

ghost use Rattle.std.specs.Prelude.{◌≡◌, ◌<◌, length};
ghost use Rattle.spliced_files.specs.Header.{design_of, has_marks, title_of};

use crate::pieces::piece_len;

/// The design text: what precedes the first asterisk. Takes no memory.
pub fn design_of(text: &[u8]) -> &[u8]
    ensures { result.now ≡ design_of text.now }
{
    match piece_len(text) {
        Some(length) => text.split_at(length).0,
        None => text,
    }
}

/// Whether a design text begins with `ABEL-HDL ` and ends with a blank and the device's name. Takes no memory.
fn has_marks(design: &[u8], device: &[u8]) -> bool
    requires { length device.now < length design.now }
    ensures { result ≡ has_marks design.now device.now }
{
    design.starts_with(b"ABEL-HDL ")
        && design.ends_with(device)
        && design[design.len() - device.len() - 1] == b' '
}

/// The name between `ABEL-HDL` and the device's in a header of this project's own; of another header the whole design text.
/// Takes no memory.
pub fn title_of<'a>(design: &'a [u8], device: &[u8]) -> &'a [u8]
    ensures { result.now ≡ title_of design.now device.now }
{
    let marks = 10 + device.len();
    if design.len() >= marks && has_marks(design, device) {
        design.split_at(9).1.split_at(design.len() - marks).0
    } else {
        design
    }
}
