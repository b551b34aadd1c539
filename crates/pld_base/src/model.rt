//! A device with the mode that it is in.

ghost use Rattle.std.specs.Prelude.{◌≡◌};
ghost use Rattle.pld_base.specs.Models.{plain_model, registered_model, simple_model};

use crate::device_name::DeviceName;

/// A device by its name, and of a GAL16V8 or GAL20V8 its mode: SYN and AC0, and by cell, from the top pin on, whether it drives
/// its pin (in simple mode) or is a register (in registered mode). Of other devices these say nothing.
#[derive(Clone, Copy, PartialEq, Eq)]
pub struct Model {
    pub name: DeviceName,
    pub syn: bool,
    pub ac0: bool,
    pub set: [bool; 8],
}

impl Model {
    /// The model of a device without modes; of a chip with modes it is that of complex mode. Takes no memory.
    pub fn plain(name: DeviceName) -> Model
        ensures { result ≡ plain_model name }
    {
        Model {
            name,
            syn: true,
            ac0: true,
            set: [false; 8],
        }
    }

    /// A chip in simple mode, in which these cells drive. Takes no memory.
    pub fn simple(name: DeviceName, driven: [bool; 8]) -> Model
        ensures { result ≡ simple_model name driven }
    {
        Model {
            name,
            syn: true,
            ac0: false,
            set: driven,
        }
    }

    /// A chip in registered mode, in which these cells are registers. Takes no memory.
    pub fn registered(name: DeviceName, stores: [bool; 8]) -> Model
        ensures { result ≡ registered_model name stores }
    {
        Model {
            name,
            syn: false,
            ac0: true,
            set: stores,
        }
    }
}
