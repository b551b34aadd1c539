//! How a value is written, position by position.

ghost use Rattle.std.specs.Prelude.{◌≡◌, ◌<◌, ◌&&◌, Bool, true};
ghost use Rattle.design_checks.specs.{positions_by, is_written_at, joined, none_written, not_written, one_written};
ghost use Rattle.design_checks.specs.Written.{Written};

/// How many positions of a value, from the left, are written as levels of signals, each with or without `!`, where 255
/// represents more; whether all of it is; and whether a pin enables each signal that it represents as a target.
#[derive(Clone, Copy, PartialEq, Eq)]
pub(crate) struct Positions {
    pub(crate) count: u8,
    pub(crate) whole: bool,
    pub(crate) by_pin: bool,
}

impl Positions {
    /// What is no level and no target.
    pub(crate) fn other() -> Positions
        ensures { result ≡ positions_by not_written true }
    {
        Positions {
            count: 0,
            whole: false,
            by_pin: true,
        }
    }

    /// No position.
    pub(crate) fn none() -> Positions
        ensures { result ≡ positions_by none_written true }
    {
        Positions {
            count: 0,
            whole: true,
            by_pin: true,
        }
    }

    /// A signal.
    pub(crate) fn signal(by_pin: bool) -> Positions
        ensures { result ≡ positions_by one_written by_pin }
    {
        Positions {
            count: 1,
            whole: true,
            by_pin,
        }
    }

    /// With what follows it.
    pub(crate) fn with(self, next: Positions) -> Positions
        ensures { (x y : Written) (b c : Bool) → self ≡ positions_by x b → next ≡ positions_by y c
            → result ≡ positions_by (joined x y) (b && c) }
    {
        let by_pin = self.by_pin && next.by_pin;
        if self.whole {
            Positions {
                count: self.count.saturating_add(next.count),
                whole: next.whole,
                by_pin,
            }
        } else {
            Positions { by_pin, ..self }
        }
    }

    /// Whether a value is written as a level at a position of its target.
    pub(crate) fn is_written_at(self, position: usize) -> bool
        ensures { (w : Written) (b : Bool) → self ≡ positions_by w b → position < 255
            → result ≡ is_written_at w position }
    {
        position < self.count as usize || self.whole && self.count == 1
    }
}
