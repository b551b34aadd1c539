//! What enables a cell.

/// A row of the array, or a pin that enables while its level is 0; or nothing does: the cell always drives its pin, or never.
#[derive(Clone, Copy, PartialEq, Eq)]
pub enum Enable {
    Row(u16),
    PinLow(u8),
    Driven,
    Released,
}
