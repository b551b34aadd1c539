//! The contributions to one signal.

ghost use Rattle.std.specs.Prelude.{◌≡◌, ◌&&◌, true, false, IfOk, filter, find};
ghost use Rattle.gathering.specs.Prelude.{is_raw, Contribution};
ghost use Rattle.std.specs.List.{list_any, list_all};
ghost use Rattle.gathering.specs.{first_data, first_target, target_place, is_to, is_data_of, is_data_of_polarity, is_free_one};

use crate::parts::{is_control, is_data_to};
use abel_tree::Extension;
use pld_base::{OutOfMemory, Place};
use set_expr::Contribution;
use std::alloc::Global;

/// The contributions to the signal, in order.
pub(crate) fn given_to(
    alloc: Global,
    list: &[Contribution],
    signal: usize,
) -> Result<Vec<Contribution>, OutOfMemory>
    ensures { IfOk result (λ own. own.items ≡ filter (is_to signal) list.now) }
{
    let own = list
        .iter()
        .copied()
        .filter(|given| given.target.signal == signal)
        .collect(alloc)?;
    Ok(own)
}

/// The first one to the control of the signal.
pub(crate) fn first_for(
    list: &[Contribution],
    signal: usize,
    control: Extension,
) -> Option<Contribution>
    ensures { result ≡ first_target signal control list.now }
{
    list.iter()
        .copied()
        .find(|given| is_control(control, signal, given))
}

/// Whether some are data to the signal.
fn has_data(list: &[Contribution], signal: usize) -> bool
    ensures { result ≡ list_any (is_data_of signal) list.now }
{
    list.iter().any(|given| is_data_to(signal, given))
}

/// Whether all that are data to the signal are don't-care by their table or diagram.
fn all_free(list: &[Contribution], signal: usize) -> bool
    ensures { result ≡ list_all (is_free_one signal) list.now }
{
    list.iter().all(|given| !is_data_to(signal, given) || given.block.is_some() && given.dontcare)
}

/// Whether some are data to the signal, and all that are are don't-care by their table or diagram.
pub(crate) fn is_free(list: &[Contribution], signal: usize) -> bool
    ensures { result ≡ (list_any (is_data_of signal) list.now && list_all (is_free_one signal) list.now) }
{
    has_data(list, signal) && all_free(list, signal)
}

/// Whether some data are to the complement of the signal.
pub(crate) fn is_complement(list: &[Contribution], signal: usize) -> bool
    ensures { result ≡ list_any (λ (c : Contribution). is_data_of signal c && c.complement) list.now }
{
    list.iter()
        .any(|given| is_data_to(signal, given) && given.complement)
}

/// Whether some data are to the complement of the signal, or to its name.
fn has_data_in(complement: bool, list: &[Contribution], signal: usize) -> bool
    ensures { result ≡ list_any (is_data_of_polarity complement signal) list.now }
{
    list.iter().any(|given| is_data_to(signal, given) && given.complement == complement)
}

/// Whether some data are to the name of the signal, and some to its complement.
pub(crate) fn is_both(list: &[Contribution], signal: usize) -> bool
    ensures { result ≡ (list_any (is_data_of_polarity false signal) list.now
        && list_any (is_data_of_polarity true signal) list.now) }
{
    has_data_in(false, list, signal) && has_data_in(true, list, signal)
}

/// Whether some data are for the raw input of the signal's register.
pub(crate) fn has_raw(list: &[Contribution], signal: usize) -> bool
    ensures { result
        ≡ list_any (λ (c : Contribution). is_data_of signal c && is_raw c.target.extension) list.now }
{
    list.iter().any(|given| is_data_to(signal, given) && Extension::is_raw(given.target.extension))
}

/// The place of the first data to the signal.
pub(crate) fn first_place(list: &[Contribution], signal: usize) -> Option<Place>
    ensures { result ≡ target_place (first_data signal list.now) }
{
    list.iter()
        .find(|given| is_data_to(signal, given))
        .map(|given| given.place)
}
