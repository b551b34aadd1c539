//! What the strings of ISTYPE say of a name.

/// The attributes that have an effect, each said or not.
#[derive(Clone, Copy, PartialEq, Eq)]
pub(crate) struct Said {
    pub(crate) combinational: bool,
    pub(crate) registered: bool,
    pub(crate) buffer: bool,
    pub(crate) invert: bool,
    pub(crate) dc: bool,
}

/// No attribute is said.
pub(crate) const NOTHING: Said = Said {
    combinational: false,
    registered: false,
    buffer: false,
    invert: false,
    dc: false,
};
