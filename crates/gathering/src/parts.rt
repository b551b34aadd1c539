//! What a contribution is for.

ghost use Rattle.std.specs.Prelude.{◌≡◌, ◌==◌, ◌&&◌, List};
ghost use Rattle.gathering.specs.Prelude.{Formula, is_data, is_the_control, same_gives, view_contribution, view_gives};
ghost use Rattle.gathering.specs.{is_for};

use abel_tree::Extension;
use set_expr::{Contribution, Gives};

/// The data of a signal that give one of the three, those of them to its complement (true) or its name (false),
/// or a control by its extension.
#[derive(Clone, Copy, PartialEq, Eq)]
pub enum Part {
    Data(Gives),
    DataIn(bool, Gives),
    Control(Extension),
}

/// Whether the contribution is data to the signal: to the name itself, or to the raw input of its register.
pub(crate) fn is_data_to(signal: usize, given: &Contribution) -> bool
    ensures { result ≡ (given.now.target.signal == signal && is_data given.now.target.extension) }
{
    given.target.signal == signal && Extension::is_data(given.target.extension)
}

/// Whether both give the same.
fn same_gives(a: Gives, b: Gives) -> bool
    ensures { result ≡ same_gives (view_gives a) (view_gives b) }
{
    match (a, b) {
        (Gives::One, Gives::One) => true,
        (Gives::Any, Gives::Any) => true,
        (Gives::Match, Gives::Match) => true,
        _ => false,
    }
}

/// Whether the contribution is to the control of the signal.
pub(crate) fn is_control(control: Extension, signal: usize, given: &Contribution) -> bool
    ensures { result ≡ (given.now.target.signal == signal && is_the_control control given.now.target.extension) }
{
    given.target.signal == signal
        && match (control, given.target.extension) {
            (Extension::Oe, Some(Extension::Oe)) => true,
            (Extension::Ar, Some(Extension::Ar)) => true,
            (Extension::Sp, Some(Extension::Sp)) => true,
            _ => false,
        }
}

/// Whether the contribution is for this part of the signal.
pub(crate) fn is_for(part: Part, signal: usize, given: &Contribution) -> bool
    ensures { (fs : List Formula) → result ≡ is_for part signal (view_contribution fs given.now) }
{
    match part {
        Part::Data(gives) => is_data_to(signal, given) && same_gives(gives, given.what),
        Part::DataIn(complement, gives) => {
            is_data_to(signal, given)
                && given.complement == complement
                && same_gives(gives, given.what)
        }
        Part::Control(control) => is_control(control, signal, given),
    }
}
