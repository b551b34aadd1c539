//! Where what is open in a text ends.

ghost use Rattle.std.specs.Prelude.{◌≡◌, ◌<◌, ◌^◌, [], ◌∷◌, ◌++◌, replicate, set, IfOk, OnOk, IfSome, IfNone};

use std::alloc::{AllocError, Global};

/// For each place of a text, where what begins there ends, or 0; and the places where what is open began, the innermost one
/// last.
#[derive(Drop)]
pub struct Ends {
    pub ends: Vec<u32>,
    pub begun: Vec<usize>,
}

impl Ends {
    /// Of so many bytes, before the first one.
    pub fn new(alloc: Global, bytes: usize) -> Result<Ends, AllocError>
        ensures ends { IfOk result (λ e. e.ends.items ≡ replicate bytes 0) }
        ensures begun { IfOk result (λ e. e.begun.items ≡ []) }
    {
        let ends = Vec::from_elem(alloc, 0, bytes)?;
        let begun = Vec::new(alloc);
        Ok(Ends { ends, begun })
    }

    /// Something begins at a place.
    pub fn begin(&mut self, place: usize) -> Result<(), AllocError>
        ensures begun { OnOk result (self.new.begun.items ≡ self.old.begun.items ++ place ∷ []) }
        ensures ends { self.new.ends.items ≡ self.old.ends.items }
    {
        self.begun.push(place)?;
        Ok(())
    }

    /// The innermost that is open ends at a place; if it began.
    pub fn end(&mut self, at: usize) -> Option<usize>
        requires { at < 2 ^ 32 }
        ensures begun { IfSome result (λ p. self.old.begun.items ≡ self.new.begun.items ++ p ∷ []) }
        ensures ends { IfSome result (λ p. self.new.ends.items ≡ set self.old.ends.items p at) }
        ensures none { IfNone result (self.new.begun.items ≡ []) }
        ensures same { IfNone result (self.new.ends.items ≡ self.old.ends.items) }
    {
        let place = self.begun.pop()?;
        if place < self.ends.len() {
            self.ends[place] = at as u32;
        }
        Some(place)
    }

    /// What is open isn't followed any further.
    pub fn forget(&mut self)
        ensures begun { self.new.begun.items ≡ [] }
        ensures ends { self.new.ends.items ≡ self.old.ends.items }
    {
        self.begun.clear();
    }
}
