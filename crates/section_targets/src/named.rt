//! The signals that names represent as targets.

ghost use Rattle.std.specs.Prelude.{◌≡◌, ◌==◌, ◌<◌, ℕ, Bool, List, [], ◌∷◌, ◌++◌, ◌&&◌, true, IfOk, length};
ghost use Rattle.section_targets.specs.Prelude.{entries_of, targets_of, some_signals, Term, Known, term_named, extended_if};
ghost use Rattle.section_targets.specs.{AreSignals, IsOfTerm, StandFor};

use abel_tree::Extension;
use pld_base::{ListOf, OutOfMemory};
use set_expr::Scope;
use std::alloc::Global;

/// The signals that a name represents, from the left, and whether it represents nothing else. A target has at most 32
/// signals, so that 33 of them say that there are too many: no more are listed.
#[derive(Drop)]
pub struct NamedSignals {
    pub signals: ListOf<usize>,
    pub alone: bool,
}

/// The names of a source, with what the first of them represent.
#[derive(Clone, Copy)]
pub(crate) struct Targets<'a> {
    pub(crate) alloc: Global,
    pub(crate) scope: &'a Scope<'a>,
    pub(crate) named: &'a [NamedSignals],
}

impl NamedSignals {
    /// No signal.
    pub(crate) fn none(alloc: Global, alone: bool) -> NamedSignals
        ensures { (count : ℕ) → AreSignals count result [] alone }
    {
        NamedSignals {
            signals: ListOf::from_vec(Vec::new(alloc)),
            alone,
        }
    }

    /// One signal.
    pub(crate) fn one(alloc: Global, signal: usize) -> Result<NamedSignals, OutOfMemory>
        ensures { IfOk result (λ n. (count : ℕ) → signal < count → AreSignals count n (signal ∷ []) true) }
    {
        let mut signals = Vec::new(alloc);
        signals.push(signal)?;
        Ok(NamedSignals {
            signals: ListOf::from_vec(signals),
            alone: true,
        })
    }

    /// With others after them.
    pub(crate) fn with(self, rest: &NamedSignals) -> Result<NamedSignals, OutOfMemory>
        ensures { IfOk result (λ n. (count : ℕ) (xs ys : List ℕ) (b c : Bool) → AreSignals count self xs b → AreSignals count rest.now ys c → AreSignals count n (xs ++ ys) (b && c)) }
    {
        let alone = self.alone && rest.alone;
        let mut signals = self.signals.into_vec();
        signals.extend_from_slice(rest.signals.as_slice())?;
        signals.truncate(33);
        Ok(NamedSignals {
            signals: ListOf::from_vec(signals),
            alone,
        })
    }

    /// Those of the name with this text; what isn't one of the names is a number.
    pub(crate) fn of_name(targets: &Targets<'_>, text: &[u8]) -> Result<NamedSignals, OutOfMemory>
        ensures { IfOk result (λ n. (count : ℕ) (ks : List Known)
            → StandFor count (entries_of targets.now.scope.now) targets.now.named.now ks
            → IsOfTerm count n (term_named ks text.now)) }
    {
        let Some(name) = targets.scope.get(text) else {
            return Ok(NamedSignals::none(targets.alloc, false));
        };
        let Some(named) = targets.named.get(name.number) else {
            return Ok(NamedSignals::none(targets.alloc, false));
        };
        NamedSignals::none(targets.alloc, true).with(named)
    }

    /// With an extension at each, if there is one: a name represents no signal then.
    pub(crate) fn extended(self, extension: Option<Extension>) -> NamedSignals
        ensures { (count : ℕ) (t : Term) → IsOfTerm count self t → IsOfTerm count result (extended_if extension t) }
    {
        match extension {
            None => self,
            Some(_) => NamedSignals {
                alone: self.is_nothing(),
                ..self
            },
        }
    }

    /// Whether it represents nothing at all.
    fn is_nothing(&self) -> bool
        ensures { result ≡ self.now.alone && (length self.now.signals == 0) }
    {
        self.alone && self.signals.as_slice().len() == 0
    }
}
