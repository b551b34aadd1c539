//! The attributes of a signal.

ghost use Rattle.std.specs.Prelude.{⊤, ◌≡◌, [], ◌∷◌, codes};

use bitflags::{Flag, Flags, bitflag_items};

/// A set of the attributes that have an effect: combinational, registered, how a register's pin follows
/// Q, and don't-care.
#[derive(Clone, Copy, PartialEq, Eq, Debug)]
pub struct Attributes(pub u8);

bitflag_items! {
    impl Attributes: u8 {
        const COM = 1;
        const REG = 2;
        const BUFFER = 4;
        const INVERT = 8;
        const DC = 16;
    }
}

impl Flags for Attributes {
    type Bits = u8;

    ghost exact = { ⊤ };

    ghost table = { (codes "COM", 1) ∷ (codes "REG", 2) ∷ (codes "BUFFER", 4) ∷ (codes "INVERT", 8) ∷ (codes "DC", 16) ∷ [] };

    ghost set_of = { λ a. a.0 };

    fn flags<'a>() -> &'a [Flag<Attributes>] {
        Attributes::FLAGS
    }

    fn bits(&self) -> u8 {
        self.0
    }

    fn from_bits_retain(bits: u8) -> Attributes {
        Attributes(bits)
    }
}
