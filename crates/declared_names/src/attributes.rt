//! What is said of a signal, and what its attributes become.

ghost use Rattle.std.specs.Prelude.{◌≡◌};
ghost use Rattle.declared_names.specs.Prelude.{is_registered, view_attributes};
ghost use Rattle.declared_names.specs.{attribute_words, words_by};

use crate::marks::Mark;
use abel_tree::Attributes;
use bitflags::Flags;
use pld_device::Flip;

/// The attributes of a signal: its kind, its polarity and DC; neither polarity if it is free, which is a register that
/// nothing holds, of which neither is said, on a device that leaves it to the fitter.
pub(crate) fn settled_attributes(flip: Flip, said: Attributes, mark: Mark, held: bool) -> Attributes
    ensures { view_attributes result ≡ words_by flip held (view_attributes said) (is_registered (view_attributes said) mark.strong) }
{
    let registered = said.contains(Attributes::REG)
        || (!said.contains(Attributes::COM) && mark.strong);
    let open = !said.contains(Attributes::BUFFER)
        && !said.contains(Attributes::INVERT)
        && matches!(flip, Flip::AfterRegister);
    let buffer = said.contains(Attributes::BUFFER) || open;
    let free = registered && open && !held;
    attributes_of(registered, buffer, free, said.contains(Attributes::DC))
}

/// The set of one kind, one polarity or none, and perhaps DC.
fn attributes_of(registered: bool, buffer: bool, free: bool, dc: bool) -> Attributes
    ensures { view_attributes result ≡ attribute_words registered buffer free dc }
{
    let kind = if registered {
        Attributes::REG
    } else {
        Attributes::COM
    };
    let polarity = if buffer {
        Attributes::BUFFER
    } else {
        Attributes::INVERT
    };
    let settled = if free { kind } else { kind.union(polarity) };
    if dc {
        settled.union(Attributes::DC)
    } else {
        settled
    }
}
