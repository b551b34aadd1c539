//! The arguments of a call, by the parameters that they represent.

ghost use Rattle.std.specs.Prelude.{◌≡◌, Some, None, IfOk, IfSome, IfNone};
ghost use Rattle.text_rewriting.specs.Prelude.{joined, standing_for, names, texts};
ghost use Rattle.text_rewriting.specs.Bound.{bound};

use indexmap::IndexMap;
use pld_base::OutOfMemory;
use std::alloc::Global;
use text_pieces::Piece;

/// What represents each parameter: the argument in the place of the first parameter of its name.
#[derive(Drop)]
pub struct Arguments<'m, 'a> {
    by_name: IndexMap<Vec<u8>, &'m [Piece<'a>]>,
}

impl<'m, 'a> Arguments<'m, 'a> {
    /// These arguments for these parameters. The last pair is kept first, so that an earlier one of its
    /// name replaces it.
    #[tactic(auto, using(crate::proofs::Bounds::none_bound, crate::proofs::Bounds::next_bound, crate::proofs::Bounds::all_bound))]
    pub fn new(
        alloc: Global,
        parameters: &[Vec<u8>],
        arguments: &'m [Vec<Piece<'a>>],
    ) -> Result<Arguments<'m, 'a>, OutOfMemory>
        ensures { IfOk result (λ a. bound a.by_name.entries ≡ standing_for (names parameters.now) (texts arguments.now)) }
    {
        let mut by_name = IndexMap::new(alloc);
        let mut left = parameters.len().min(arguments.len());
        'pairs: while left > 0 {
            left -= 1;
            let name = Vec::from_slice(alloc, parameters[left].as_slice())?;
            by_name.insert(name, arguments[left].as_slice())?;
        }
        Ok(Arguments { by_name })
    }

    /// The argument that represents a name.
    #[tactic(auto, using(crate::proofs::Bounds::bound_some, crate::proofs::Bounds::bound_none))]
    pub fn of(&self, name: &[u8]) -> Option<&'m [Piece<'a>]>
        ensures some { IfSome result (λ a. bound self.now.by_name.entries name.now ≡ Some (joined a.now)) }
        ensures none { IfNone result (bound self.now.by_name.entries name.now ≡ None) }
    {
        match self.by_name.get(name) {
            Some(argument) => Some(*argument),
            None => None,
        }
    }
}
