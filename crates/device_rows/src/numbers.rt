//! The numbers of devices.

use pld_device::{Device, Loaded};
use test_rows::Found;

/// Appends a number that there may be.
pub fn put_number(number: Option<u16>, found: &mut Found) {
    match number {
        Some(number) => found.number(usize::from(number)),
        None => found.text("none"),
    }
}

/// Appends the number of a device that a word names, or its name.
pub fn put_named<D: Device>(device: &Loaded<D>, word: &str, found: &mut Found) {
    if word == "name" {
        let name = device.name();
        found.text(name.text());
    }
    let numbers = [
        ("pins", Some(u16::from(device.pins()))),
        ("ground", Some(u16::from(device.ground()))),
        ("columns", Some(device.columns())),
        ("rows", Some(device.rows())),
        ("fuses", Some(device.fuses())),
        ("short", Some(device.short())),
        ("cells", Some(u16::from(device.cells()))),
        ("clock", Some(u16::from(device.clock()))),
        ("reset", device.reset()),
        ("preset", device.preset()),
    ];
    for (name, number) in numbers {
        if name == word {
            put_number(number, found);
        }
    }
}
