//! What is declared of a name.

ghost use Rattle.std.specs.Prelude.{◌≡◌, ◌<◌, IfSome, length};
ghost use Rattle.gathering.specs.Prelude.{view_declared, view_meaning, is_free, cell_of};
ghost use Rattle.gathering.specs.{is_node_kind};

use abel_tree::{Attributes, Declared, Meaning};
use bitflags::Flags;
use pld_device::{Device, Loaded, cell_on};

/// Whether it is a node.
pub(crate) fn is_node(meaning: &Meaning) -> bool
    ensures { result ≡ is_node_kind (view_meaning meaning.now) }
{
    matches!(meaning, Meaning::Node(_))
}

/// Whether the signal is a register whose polarity is left to the fitter.
pub(crate) fn is_free(declared: &Declared) -> bool
    ensures { result ≡ is_free (view_declared declared.now) }
{
    let said = declared.attributes;
    declared.is_stored() && !said.contains(Attributes::BUFFER) && !said.contains(Attributes::INVERT)
}

/// The cell of an assigned signal.
pub(crate) fn cell_of<D: Device>(device: &Loaded<D>, declared: &Declared) -> Option<u8>
    ensures cell { result ≡ cell_of D.table (view_declared declared.now) }
    ensures within { IfSome result (λ c. c < length D.table.cells) }
{
    match &declared.meaning {
        Meaning::Pin { pin, negated: _ } if declared.assigned => cell_on::<D>(device, *pin),
        _ => None,
    }
}
