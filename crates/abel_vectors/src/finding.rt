//! What is found of vectors, row after row and section after section.

ghost use Rattle.std.specs.Prelude.{◌≡◌, ℕ, Some, [], ◌∷◌, IfErr, IfOk, List, Ok, OnOk};
ghost use Rattle.abel_vectors.specs.Prelude.{Table, chars_of, first_refusal, section_order, SectionFault};
ghost use Rattle.abel_tree.specs.FirstRefusal as refusal;
ghost use Rattle.abel_vectors.specs.{fault_in, Finds, IsFound, IsReadAs, NothingFound, IsAnswer};

use abel_tree::{earlier, is_before};
use pld_base::{OutOfMemory, Vector};
use set_expr::SectionFault;
use std::alloc::Global;

/// The first refusal so far, and if there isn't one the vectors so far.
#[derive(Drop)]
pub(crate) struct Found {
    pub fault: Option<SectionFault>,
    pub list: Vec<Vector>,
}

impl Found {
    /// Nothing yet.
    pub(crate) fn new(alloc: Global) -> Found
        ensures { NothingFound result }
    {
        Found {
            fault: None,
            list: Vec::new(alloc),
        }
    }

    /// One refusal more.
    pub(crate) fn refuse(&mut self, fault: SectionFault)
        ensures { (t : Table) (rs : List SectionFault) (texts : List (List ℕ)) → first_refusal section_order rs ≡ Some fault
            → Finds t rs texts self.old self.new }
    {
        self.fault = earlier(self.fault, Some(fault));
    }

    /// The vector of one row more, or its refusal.
    pub(crate) fn add(&mut self, read: Result<Vector, SectionFault>) -> Result<(), OutOfMemory>
        ensures { OnOk result ((t : Table) (rs : List SectionFault) (text : List ℕ)
            → IsReadAs rs (λ vector. chars_of t vector ≡ text) read → Finds t rs (text ∷ []) self.old self.new) }
    {
        match read {
            Ok(vector) => Ok(self.list.push(vector)?),
            Err(fault) => {
                self.refuse(fault);
                Ok(())
            }
        }
    }

    /// The vectors, or the first refusal.
    pub(crate) fn answer(self) -> Result<Vec<Vector>, SectionFault>
        ensures { (t : Table) (rs : List SectionFault) (texts : List (List ℕ)) → IsFound t rs texts self
            → IsAnswer t rs texts result }
    {
        match self.fault {
            Some(fault) => Err(fault),
            None => Ok(self.list),
        }
    }
}

/// The first of two refusals.
pub(crate) fn first_of(first: SectionFault, other: SectionFault) -> SectionFault
    ensures { Some result ≡ refusal.earlier section_order (Some first) (Some other) }
{
    if is_before(&other, &first) {
        other
    } else {
        first
    }
}

/// Both of two things that were read in this order, or the first refusal.
pub(crate) fn both<A: Drop, B: Drop>(
    left: Result<A, SectionFault>,
    right: Result<B, SectionFault>,
) -> Result<(A, B), SectionFault>
    ensures read { IfOk result (λ x. (left ≡ Ok x.0) × (right ≡ Ok x.1)) }
    ensures refused { IfErr result (λ f. Some f ≡ refusal.earlier section_order (fault_in left) (fault_in right)) }
{
    match (left, right) {
        (Ok(left), Ok(right)) => Ok((left, right)),
        (Ok(_), Err(right)) => Err(right),
        (Err(left), Ok(_)) => Err(left),
        (Err(left), Err(right)) => Err(first_of(left, right)),
    }
}
