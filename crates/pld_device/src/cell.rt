//! A macrocell of a device.

use crate::enable::Enable;
use crate::kinds::Kinds;

/// A cell: its pin, what enables it, its first data row and how many there are, and its kinds.
#[derive(Clone, Copy, PartialEq, Eq)]
pub struct Cell {
    pub pin: u8,
    pub enable: Enable,
    pub first: u16,
    pub room: u8,
    pub kinds: Kinds,
}

/// What is at the places of a list that are not used yet.
impl Default for Cell {
    fn default() -> Cell {
        Cell {
            pin: 0,
            enable: Enable::Row(0),
            first: 0,
            room: 0,
            kinds: Kinds::Combinational,
        }
    }
}
