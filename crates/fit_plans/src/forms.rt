//! The forms that an assigned cell may have, and what its rows have in each.

ghost use Rattle.std.specs.Prelude.{◌≡◌};
ghost use Rattle.fit_plans.specs.Prelude.{complement_if};
ghost use Rattle.fit_plans.specs.Forms.{follows_as, may_be_inverted_as, rows_are_positive, or_is_complement, names_or};

use bit_expr::CellWanted;
use pld_device::Flip;

/// The complement if the first is 1.
fn complement_if(complement: bool, level: bool) -> bool
    ensures { result ≡ complement_if complement level }
{
    if complement { !level } else { level }
}

/// Whether the OR of a cell's rows is the complement of its pin's level, or of a register's next Q.
fn or_is_complement(flip: Flip, registered: bool, inverted: bool) -> bool
    ensures { result ≡ or_is_complement flip registered inverted }
{
    match flip {
        Flip::Always => !registered,
        Flip::AfterRegister => !registered && inverted,
        Flip::BeforeRegister => registered != inverted,
    }
}

/// Whether the cell may have the form.
pub(crate) fn may_be_inverted_as(flip: Flip, wanted: &CellWanted, inverted: bool) -> bool
    ensures { result ≡ may_be_inverted_as flip wanted.now inverted }
{
    match flip {
        Flip::Always => inverted,
        Flip::AfterRegister => !wanted.registered || wanted.free || inverted != wanted.buffer,
        Flip::BeforeRegister => true,
    }
}

/// Whether a register's pin follows Q in that form: that of a free one in the direct form alone.
fn follows_as(wanted: &CellWanted, inverted: bool) -> bool
    ensures { result ≡ follows_as wanted.now inverted }
{
    complement_if(wanted.free && inverted, wanted.buffer)
}

/// The value of which the cell's function speaks if the OR of its rows is 0.
fn names_or(flip: Flip, wanted: &CellWanted, inverted: bool) -> bool
    ensures { result ≡ names_or flip wanted.now inverted }
{
    let level = or_is_complement(flip, wanted.registered, inverted);
    if wanted.raw {
        level
    } else {
        let follows = follows_as(wanted, inverted);
        let input = complement_if(wanted.registered && !follows, level);
        complement_if(wanted.negated, input)
    }
}

/// Whether the rows of the cell have what its function's `one` has, in that form; else they have the complement.
pub(crate) fn rows_are_positive(flip: Flip, wanted: &CellWanted, inverted: bool) -> bool
    ensures { result ≡ rows_are_positive flip wanted.now inverted }
{
    !complement_if(wanted.function.complement, names_or(flip, wanted, inverted))
}
