//! Laws of all graphs, as the contract of a call that does nothing.

ghost use Rattle.std.specs.Prelude.{◌⊎◌, ℕ, Bool};
ghost use Rattle.pld_order.specs.Graphs.{HasLoop, HasNoLoop, HasNoOrder, HasOrder};

/// Every graph has an order or a loop, and none has both. Does nothing.
pub fn order_or_loop()
    ensures either { (n : ℕ) (reads : ℕ → ℕ → Bool) → HasOrder n reads ⊎ HasLoop n reads }
    ensures order { (n : ℕ) (reads : ℕ → ℕ → Bool) → HasOrder n reads → HasNoLoop n reads }
    ensures chain { (n : ℕ) (reads : ℕ → ℕ → Bool) → HasLoop n reads → HasNoOrder n reads }
{}
