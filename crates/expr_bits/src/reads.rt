//! What a value reads.

ghost use Rattle.std.specs.Prelude.{◌≡◌, ◌||◌};
ghost use Rattle.expr_bits.specs.{Asked, inside, leaf_under, no_reads, told_by};

use abel_tree::Extension;

/// Whether a value reads a signal at all, and under which extension at its bare signals it reads a leaf, and so makes
/// nodes.
#[derive(Clone, Copy, PartialEq, Eq)]
pub(crate) struct Reads {
    pub signal: bool,
    pub bare: bool,
    pub q: bool,
    pub fb: bool,
    pub pin: bool,
    /// Under `.CLK`, `.OE`, `.AR`, `.SP` or `.D`, as which no signal has a value.
    pub control: bool,
}

impl Reads {
    /// Nothing is read.
    pub(crate) fn none() -> Reads
        ensures { result ≡ no_reads }
    {
        Reads {
            signal: false,
            bare: false,
            q: false,
            fb: false,
            pin: false,
            control: false,
        }
    }

    /// Whether it reads a leaf with this extension at its bare signals.
    pub(crate) fn leaf(self, extension: Option<Extension>) -> bool
        ensures { result ≡ leaf_under self extension }
    {
        match extension {
            None => self.bare,
            Some(Extension::Q) => self.q,
            Some(Extension::Fb) => self.fb,
            Some(Extension::Pin) => self.pin,
            Some(_) => self.control,
        }
    }

    /// With an extension, which no other takes the place of.
    pub(crate) fn under(self, extension: Option<Extension>) -> Reads
        ensures { (q : Asked) → told_by result q ≡ told_by self (inside extension q) }
    {
        match extension {
            None => self,
            Some(_) => {
                let leaf = self.leaf(extension);
                Reads {
                    signal: self.signal,
                    bare: leaf,
                    q: leaf,
                    fb: leaf,
                    pin: leaf,
                    control: leaf,
                }
            }
        }
    }

    /// What both read.
    pub(crate) fn with(self, other: Reads) -> Reads
        ensures { (q : Asked) → told_by result q ≡ (told_by self q || told_by other q) }
    {
        Reads {
            signal: self.signal || other.signal,
            bare: self.bare || other.bare,
            q: self.q || other.q,
            fb: self.fb || other.fb,
            pin: self.pin || other.pin,
            control: self.control || other.control,
        }
    }
}
