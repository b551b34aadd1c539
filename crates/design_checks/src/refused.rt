//! A place of a design that is refused.

ghost use Rattle.std.specs.Prelude.{◌≡◌};
ghost use Rattle.design_checks.specs.Prelude.{first_refusal};
ghost use Rattle.design_checks.specs.{told_if, use_at, use_order};

use abel_tree::Ranked;
use pld_base::Place;

/// What is refused: its place in the expanded text, and the number of the name that is reported, from 0 in the
/// order of declaration. Of what rule it is, says the call that answers it.
#[derive(Clone, Copy, PartialEq, Eq)]
pub struct RefusedUse {
    pub place: Place,
    pub name: usize,
}

impl Ranked for RefusedUse {
    ghost use Rattle.design_checks.specs.UsesRefused.{use_order};

    ghost ranks = { use_order };

    fn place(&self) -> Place {
        self.place
    }

    fn rank(&self) -> u8 {
        0
    }
}

/// A place, if it is refused.
pub(crate) fn told_if(refused: bool, place: Place, name: usize) -> Option<RefusedUse>
    ensures { result ≡ first_refusal use_order (told_if refused (record { place = place; name = name })) }
{
    if refused {
        Some(RefusedUse { place, name })
    } else {
        None
    }
}

/// The use of a signal at a place, if there is one.
pub(crate) fn use_at(place: Place, name: Option<usize>) -> Option<RefusedUse>
    ensures { result ≡ use_at place name }
{
    match name {
        Some(name) => Some(RefusedUse { place, name }),
        None => None,
    }
}
