//! The marks of a module's names.

ghost use Rattle.std.specs.Prelude.{◌≤◌, ℕ, List, IfOk, OnOk, length, map, ◌++◌, ◌∷◌, []};
ghost use Rattle.placer.specs.Prelude.{Named, meant, named_of, view_declared, view_meaning};
ghost use Rattle.placer.specs.Marks.{AreMarks, HasMark};
ghost use Rattle.abel_meaning.specs.Reads.{read_names_of, stands_for};

use crate::marks::{Marks, mark_of};
use abel_tree::{Declared, Meaning};
use indexmap::IndexMap;
use pld_base::OutOfMemory;
use std::alloc::Global;

/// What names represent if an expression reads them, and if a target names them.
#[derive(Drop)]
pub(crate) struct Naming {
    pub(crate) reading: Marks,
    pub(crate) targets: Marks,
}

impl Naming {
    /// The mark of what a name represents if it is read: a signal represents itself, a constant for what its expression
    /// names.
    fn read_mark(
        &self,
        alloc: Global,
        signals: &[usize],
        number: usize,
        meaning: &Meaning,
    ) -> Result<u32, OutOfMemory>
        requires { length signals.now ≤ 32 }
        ensures { IfOk result (λ mark. (ks : List Named) → AreMarks signals.now ks self.now.reading → HasMark signals.now (stands_for ks number (view_meaning meaning.now)) mark) }
    {
        match meaning {
            Meaning::Pin { pin: _, negated: _ } => Ok(mark_of(signals, number)),
            Meaning::Node(_) => Ok(mark_of(signals, number)),
            Meaning::Constant(value) => self.reading.of_expr(alloc, value),
            Meaning::DeviceName => Ok(0),
        }
    }

    /// The mark of what it represents as a target.
    fn target_mark(
        &self,
        alloc: Global,
        signals: &[usize],
        number: usize,
        meaning: &Meaning,
    ) -> Result<u32, OutOfMemory>
        requires { length signals.now ≤ 32 }
        ensures { IfOk result (λ mark. (ks : List Named) → AreMarks signals.now ks self.now.targets → HasMark signals.now (meant ks number (view_meaning meaning.now)) mark) }
    {
        match meaning {
            Meaning::Pin { pin: _, negated: _ } => Ok(mark_of(signals, number)),
            Meaning::Node(_) => Ok(mark_of(signals, number)),
            Meaning::Constant(value) => self.targets.of_target(alloc, value),
            Meaning::DeviceName => Ok(0),
        }
    }

    /// One more name.
    fn enter(
        &mut self,
        alloc: Global,
        signals: &[usize],
        number: usize,
        declared: &Declared,
    ) -> Result<(), OutOfMemory>
        requires { length signals.now ≤ 32 }
        ensures reading { OnOk result ((ks : List Named) → AreMarks signals.now ks self.old.reading → AreMarks signals.now (ks ++ record { name = declared.now.name; signals = stands_for ks number (view_meaning declared.now.meaning) } ∷ []) self.new.reading) }
        ensures targets { OnOk result ((ks : List Named) → AreMarks signals.now ks self.old.targets → AreMarks signals.now (ks ++ record { name = declared.now.name; signals = meant ks number (view_meaning declared.now.meaning) } ∷ []) self.new.targets) }
    {
        let read = self.read_mark(alloc, signals, number, &declared.meaning)?;
        let named = self.target_mark(alloc, signals, number, &declared.meaning)?;
        self.reading.enter(alloc, declared.name.bytes(), read)?;
        self.targets.enter(alloc, declared.name.bytes(), named)
    }
}

/// What the names represent among these signals.
pub(crate) fn naming_of(
    alloc: Global,
    names: &[Declared],
    signals: &[usize],
) -> Result<Naming, OutOfMemory>
    requires { length signals.now ≤ 32 }
    ensures reading { IfOk result (λ n. AreMarks signals.now (read_names_of (map view_declared names.now)) n.reading) }
    ensures targets { IfOk result (λ n. AreMarks signals.now (named_of (map view_declared names.now)) n.targets) }
{
    let mut naming = Naming {
        reading: Marks {
            map: IndexMap::new(alloc),
        },
        targets: Marks {
            map: IndexMap::new(alloc),
        },
    };
    for (number, declared) in names.iter().enumerate() {
        naming.enter(alloc, signals, number, declared)?;
    }
    Ok(naming)
}
