//! Laws of logics that are alike, as the contracts of calls that do nothing.

ghost use Rattle.std.specs.Prelude.{◌≡◌, ◌<◌};
ghost use Rattle.fuse_compare.specs.Prelude.{Logic, RestsOnce};
ghost use Rattle.pld_machine.specs.Refines.{Refines, HasNoNodes};
ghost use Rattle.fuse_compare.specs.Alike.{AreAlike, RunsAlike};

/// Logics that are alike have the same runs, with the same cells enabled; and those that allow the same
/// at every point are alike. Does nothing.
pub fn alike()
    ensures runs { (a b : Logic) → a.clock ≡ b.clock → a.clock < 32 → HasNoNodes a → HasNoNodes b
        → RestsOnce b → AreAlike a b → RunsAlike a b }
    ensures functions { (a b : Logic) → Refines a b → Refines b a → RestsOnce b → AreAlike a b }
{}
