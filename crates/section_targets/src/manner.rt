//! How signals are assigned.

ghost use Rattle.std.specs.Prelude.{◌≡◌};
ghost use Rattle.section_targets.specs.Manners as said;

use abel_tree::Extension;

/// How a signal, or what its extension names of it, is assigned.
#[derive(Clone, Copy, PartialEq, Eq)]
pub struct Manner {
    pub signal: usize,
    pub extension: Option<Extension>,
    pub complement: bool,
    pub clocked: bool,
}

/// How the signals of a target are assigned, or what its extension names of them.
#[derive(Clone, Copy, PartialEq, Eq)]
pub struct Way {
    pub extension: Option<Extension>,
    pub complement: bool,
    pub clocked: bool,
}

/// What an extension names of a signal as a target: 0 is its data, the others are its controls.
fn part(extension: Option<Extension>) -> u8
    ensures { result ≡ said.part_of extension }
{
    match extension {
        None | Some(Extension::D) => 0,
        Some(Extension::Clk) => 1,
        Some(Extension::Oe) => 2,
        Some(Extension::Ar) => 3,
        Some(Extension::Sp) => 4,
        Some(Extension::Q) => 5,
        Some(Extension::Fb) => 6,
        Some(Extension::Pin) => 7,
    }
}

impl Manner {
    /// On the clock: by its sign, or as the raw input of a register.
    pub(crate) fn is_clocked(&self) -> bool
        ensures { result ≡ said.on_clock self.now }
    {
        self.clocked || Extension::is_raw(self.extension)
    }

    /// Whether it is how the same part of the same signal is assigned.
    pub(crate) fn is_of(&self, other: Manner) -> bool
        ensures { result ≡ said.is_same_part self.now other.signal (said.part_of other.extension) }
    {
        self.signal == other.signal && part(self.extension) == part(other.extension)
    }

    /// Whether it differs from how the same part is assigned first. Data may be of either polarity, but on the clock and
    /// not, or to the name and to the raw input, they differ.
    pub(crate) fn differs_from(&self, first: Option<Manner>) -> bool
        ensures { result ≡ said.differs_from first self.now }
    {
        match first {
            None => false,
            Some(first) => {
                if Extension::is_data(self.extension) {
                    first.is_clocked() != self.is_clocked()
                        || Extension::is_raw(first.extension) != Extension::is_raw(self.extension)
                } else {
                    first.complement != self.complement
                }
            }
        }
    }
}
