//! If a device complements between its rows and its pins.

/// Always at the pin, or if a control fuse says so: after the register, at the pin, or before it,
/// at its data.
#[derive(Clone, Copy, PartialEq, Eq)]
pub enum Flip {
    Always,
    AfterRegister,
    BeforeRegister,
}
