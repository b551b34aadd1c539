//! Pins and nodes settle, one slot after another, while the Qs don't change.

ghost use Rattle.std.specs.Prelude.{◌≡◌, ◌<◌, length, slice_get, IfSome};
ghost use Rattle.pld_machine.specs.Prelude.{bits, levels_of};
ghost use Rattle.pld_machine.specs.Order.{IsOrdered};
ghost use Rattle.pld_machine.specs.Settling.{settle_slot, settled_of};

use crate::logic::{Logic, Slot};
use pld_base::Point;

/// The point after one more slot.
fn settle_at<L: Logic>(logic: &L, at: Point, index: u16) -> Point
    requires order { IsOrdered (L.meaning logic.now) }
    requires within { index < length (L.meaning logic.now).slots }
    ensures { IfSome (slice_get (L.meaning logic.now).slots index)
        (λ slot. levels_of result ≡ settle_slot (L.meaning logic.now) (levels_of at) slot) }
{
    match logic.slot(index) {
        Slot::Cell(cell) => {
            if logic.enable(&at, cell) {
                let on = logic.level(&at, cell);
                Point {
                    pins: pld_base::with_level(at.pins, logic.pin(cell), on),
                    ..at
                }
            } else {
                at
            }
        }
        Slot::Node(node) => {
            let on = logic.node(&at, node);
            Point {
                nodes: pld_base::with_value(at.nodes, node, on),
                ..at
            }
        }
    }
}

/// The point after all slots, from the outside levels and with these Qs.
pub fn settled<L: Logic>(logic: &L, outside: u32, q: u32) -> Point
    requires { IsOrdered (L.meaning logic.now) }
    ensures { levels_of result ≡ settled_of (L.meaning logic.now) (bits 32 outside) (bits 32 q) }
{
    let mut at = Point {
        pins: outside,
        q,
        nodes: 0,
    };
    for index in 0..logic.slots() {
        at = settle_at(logic, at, index);
    }
    at
}
