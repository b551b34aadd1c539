//! A device as the name of a section says it: by its name, or of a chip with modes by its name, its mode and a digit a cell.

use pld_base::{DeviceName, Model};

/// By cell, from the top pin on, whether its digit is 1.
fn set_of(digits: &[u8]) -> Option<[bool; 8]> {
    if digits.len() != 8 {
        return None;
    }
    let mut set = [false; 8];
    for cell in 0..8 {
        set[cell] = digits[cell] == b'1';
    }
    Some(set)
}

/// The chip in the mode of these words.
fn in_mode(name: DeviceName, words: &str) -> Option<Model> {
    let (mode, digits) = words.split_once(' ')?;
    let set = set_of(digits.as_bytes())?;
    match mode {
        "simple" => Some(Model::simple(name, set)),
        "registered" => Some(Model::registered(name, set)),
        _ => None,
    }
}

/// The model of the words.
pub fn model_named(words: &str) -> Option<Model> {
    match words.split_once(' ') {
        Some((name, mode)) => in_mode(DeviceName::named(name.as_bytes())?, mode),
        None => Some(Model::plain(DeviceName::named(words.as_bytes())?)),
    }
}
