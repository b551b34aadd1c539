//! The order of pins in test vectors.

ghost use Rattle.std.specs.Prelude.{◌≡◌, ◌≤◌, length, All};
ghost use Rattle.jedec_reader.specs.Prelude.{order_of};
ghost use Rattle.jedec_reader.specs.FieldFits.{FieldFits};
ghost use Rattle.jedec_reader.specs.VectorTable.{ArePlaces, place_of};

use jedec_file::Field;
use pld_device::{Device, Loaded};

/// The pins in rising order, of the device that has most.
const RISING: [u8; 24] = [
    1, 2, 3, 4, 5, 6, 7, 8, 9, 10, 11, 12, 13, 14, 15, 16, 17, 18, 19, 20, 21, 22, 23, 24,
];

/// Where vectors have the character of each pin, that of pin p at p - 1: by the last order of pins,
/// and in rising order if there isn't one.
pub fn places<D: Device>(device: &Loaded<D>, fields: &[Field]) -> [u8; 24]
    requires { All (FieldFits D.table) fields.now }
    ensures { ArePlaces (order_of D.table fields.now) result }
{
    let mut places = places_in(RISING.as_slice().split_at(usize::from(device.pins())).0);
    for field in fields {
        if let Field::PinOrder(order) = field {
            places = places_in(order.as_slice());
        }
    }
    places
}

/// The places by this order of pins.
fn places_in(order: &[u8]) -> [u8; 24]
    requires { length order.now ≤ 24 }
    ensures { ArePlaces order.now result }
{
    let mut places = [0; 24];
    for pin in 0..order.len() {
        places[pin] = place_of(order, pin as u8 + 1);
    }
    places
}

/// The first place of the pin, 0 if it has none.
fn place_of(order: &[u8], pin: u8) -> u8
    requires { length order.now ≤ 24 }
    ensures { result ≡ place_of order.now pin }
{
    for (place, other) in order.iter().enumerate() {
        if *other == pin {
            return place as u8;
        }
    }
    0
}
