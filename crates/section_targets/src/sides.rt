//! The signals of targets with their places, and what is no target.

ghost use Rattle.std.specs.Prelude.{◌≡◌, ℕ, Bool, min, if◌then◌else◌, List, [], ◌∷◌, IfOk, length};
ghost use Rattle.section_targets.specs.Prelude.{entries_of, find, first_refusal, Context, NotAnOutput, too_wide, section_order, option_to_list};
ghost use Rattle.section_targets.specs.{AreSignals, IsSide, AreTargets, TargetFound, aims_at, targets_both, target_name, start_at, is_signal_number};

use crate::aim::Aim;
use crate::named::{NamedSignals, Targets};
use abel_tree::{Meaning, earlier};
use pld_base::{ListOf, OutOfMemory, Place};
use set_expr::{Scope, SectionFault};
use std::alloc::{AllocError, Global};

/// What is found of a target: its first refusal, and its signals from the left. More than 32 of them are refused, so that
/// no more than 33 are listed.
#[derive(Drop)]
pub struct Side {
    pub aims: ListOf<Aim>,
    pub fault: Option<SectionFault>,
}

/// The number of the name with this text, None if it is not declared. Takes no memory.
pub fn number_of(scope: &Scope<'_>, text: &[u8]) -> Option<usize>
    ensures { result ≡ find (entries_of scope.now) text.now }
{
    match scope.get(text) {
        None => None,
        Some(name) => Some(name.number),
    }
}

/// Signals that are all named at one place.
fn list_aims(alloc: Global, signals: &[usize], place: Place) -> Result<Vec<Aim>, AllocError>
    ensures { IfOk result (λ aims. aims.items ≡ aims_at place signals.now) }
{
    signals
        .iter()
        .map(|signal| Aim {
            signal: *signal,
            place,
        })
        .collect(alloc)
}

/// The place of the signals of the name with this number: the beginning of the side if it is a signal's, and else the
/// place of its use.
fn start(scope: &Scope<'_>, number: Option<usize>, used: Place, begin: Place) -> Place
    ensures { result ≡ (if is_signal_number (entries_of scope.now) number then begin else used) }
{
    let Some(number) = number else {
        return used;
    };
    match scope.list().get(number) {
        None => used,
        Some(declared) => match &declared.meaning {
            Meaning::Pin { .. } | Meaning::Node(_) => begin,
            Meaning::Constant(_) | Meaning::DeviceName => used,
        },
    }
}

/// Refused if a name represents what is no signal.
fn refuse_mixed(alone: bool, place: Place, name: Option<usize>) -> Option<SectionFault>
    ensures { result ≡ first_refusal section_order (if alone then [] else NotAnOutput place name ∷ []) }
{
    (!alone).then_some(SectionFault::NotAnOutput(place, name))
}

/// Refused if a set has more than 32 positions.
pub(crate) fn refuse_wide(place: Place, width: usize) -> Option<SectionFault>
    ensures { (n : ℕ) → width ≡ min 33 n → result ≡ first_refusal section_order (too_wide place n) }
{
    (width > 32).then_some(SectionFault::BadWidth(place))
}

impl Side {
    /// No signal, with what is refused, if anything is.
    pub(crate) fn empty(alloc: Global, fault: Option<SectionFault>) -> Side
        ensures { (count : ℕ) → IsSide count result (record { refusals = option_to_list fault; aims = [] }) }
    {
        Side {
            aims: ListOf::from_vec(Vec::new(alloc)),
            fault,
        }
    }

    /// The name with this text, used at this place. A signal that it names itself is at the beginning of the side, and
    /// what a constant brings at the name.
    pub(crate) fn of_name(
        targets: &Targets<'_>,
        text: &[u8],
        used: Place,
        begin: Place,
    ) -> Result<Side, OutOfMemory>
        ensures { IfOk result (λ s. (d : Context) → d.names ≡ entries_of targets.now.scope.now → AreTargets d targets.now.named.now
            → IsSide (length d.names) s (target_name d used (start_at d begin used text.now) text.now)) }
    {
        let found = targets.scope.check_name(text, used);
        let number = number_of(targets.scope, text);
        let signals = NamedSignals::of_name(targets, text)?;
        let start = start(targets.scope, number, used, begin);
        let mixed = refuse_mixed(signals.alone, start, number);
        let aims = list_aims(targets.alloc, signals.signals.as_slice(), start)?;
        Ok(Side {
            aims: ListOf::from_vec(aims),
            fault: earlier(found.fault, earlier(found.special, mixed)),
        })
    }

    /// With what is found of a member after it.
    #[tactic(auto, using(abel_tree::proofs::FirstRefusals::first_append))]
    pub(crate) fn with(self, other: &Side) -> Result<Side, OutOfMemory>
        ensures { IfOk result (λ s. (count : ℕ) (x y : TargetFound) → IsSide count self x → IsSide count other.now y → IsSide count s (targets_both x y)) }
    {
        let mut aims = self.aims.into_vec();
        aims.extend_from_slice(other.aims.as_slice())?;
        aims.truncate(33);
        Ok(Side {
            aims: ListOf::from_vec(aims),
            fault: earlier(self.fault, other.fault),
        })
    }
}
