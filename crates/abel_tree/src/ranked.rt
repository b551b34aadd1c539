//! Which of several refusals is the first.

ghost use Rattle.std.specs.Prelude.{◌≡◌};
ghost use Rattle.abel_tree.specs.FirstRefusal.{is_before};
ghost use Rattle.abel_tree.specs.FirstRefusal as refusal;

use pld_base::Place;

/// What is at a place of a source and, among others at that place, has a rank.
pub trait Ranked {
    ghost use Rattle.std.specs.Prelude.{◌≡◌};
    ghost use Rattle.abel_tree.specs.FirstRefusal.{Ranks};

    ghost ranks: { Ranks Self };

    /// Its place.
    fn place(&self) -> Place
        ensures { result ≡ ranks.place self.now };

    /// Which is first at one place.
    fn rank(&self) -> u8
        ensures { result ≡ ranks.rank self.now };
}

impl Ranked for Place {
    ghost use Rattle.abel_tree.specs.FirstRefusal.{place_order};

    ghost ranks = { place_order };

    fn place(&self) -> Place {
        *self
    }

    fn rank(&self) -> u8 {
        0
    }
}

/// Whether one precedes another: by line, by column, and at one place by rank.
#[tactic(auto, unfolding(crate::specs::FirstRefusal::is_before))]
pub fn is_before<F: Ranked>(here: &F, there: &F) -> bool
    ensures { result ≡ is_before F.ranks here.now there.now }
{
    let (one, two) = (here.place(), there.place());
    if one.line != two.line {
        return one.line < two.line;
    }
    if one.column != two.column {
        return one.column < two.column;
    }
    here.rank() < there.rank()
}

/// The first of two that may be none, the left one if neither precedes the other.
pub fn earlier<F: Ranked + Drop>(left: Option<F>, right: Option<F>) -> Option<F>
    ensures { result ≡ refusal.earlier F.ranks left right }
{
    match (left, right) {
        (Some(here), Some(there)) => {
            if is_before(&there, &here) {
                Some(there)
            } else {
                Some(here)
            }
        }
        (Some(here), None) => Some(here),
        (None, right) => right,
    }
}
