//! Points of a device, what they show, and test vectors.

/// A level for each pin, a Q for each cell and a value for each node: bit p of `pins` is pin p, bit c
/// of `q` is cell c, bit n of `nodes` is node n.
#[derive(Clone, Copy, Debug, PartialEq, Eq)]
pub struct Point {
    pub pins: u32,
    pub q: u32,
    pub nodes: u128,
}

/// What a point shows: bit p of `driven` says whether pin p is driven, bit p of `level` with which
/// level; a released pin has level 0 here.
#[derive(Clone, Copy, PartialEq, Eq)]
pub struct Trace {
    pub driven: u32,
    pub level: u32,
}

/// A test vector: the character of pin p is at p - 1 (JESD3-C, test vector field).
#[derive(Clone, Copy, PartialEq, Eq)]
pub struct Vector {
    pub chars: [u8; 24],
}
