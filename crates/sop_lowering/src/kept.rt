//! Lists that are kept by id and polarity while one list is made.

ghost use Rattle.std.specs.Prelude.{◌≡◌, IfOk, None, set};
ghost use Rattle.sop_lowering.specs.Prelude.{ExprId};
ghost use Rattle.sop_lowering.specs.Keeping.{KeepsNone, Puts, kept_at, products_at, products_of};

use bit_expr::ExprId;
use covers::Cube;
use std::alloc::{AllocError, Global};

/// A bit of the arena in a polarity.
#[derive(Clone, Copy, PartialEq, Eq)]
pub(crate) struct SignedBit {
    pub(crate) id: ExprId,
    pub(crate) positive: bool,
}

/// The bit in the polarity. Takes no memory.
pub(crate) fn signed(id: ExprId, positive: bool) -> SignedBit
    ensures { result ≡ record { id = id; positive = positive } }
{
    SignedBit { id, positive }
}

/// For each id the list of the bit, and that of its complement, if they are kept.
#[derive(Drop)]
pub(crate) struct Kept {
    positive: Vec<Option<Vec<Cube>>>,
    negative: Vec<Option<Vec<Cube>>>,
}

/// No list, for so many ids.
fn no_lists(alloc: Global, ids: usize) -> Result<Vec<Option<Vec<Cube>>>, AllocError>
    ensures { IfOk result (λ lists. (id : ExprId) → products_at lists.items id ≡ None) }
{
    let mut lists = Vec::new(alloc);
    for _id in 0..ids {
        lists.push(None)?;
    }
    Ok(lists)
}

/// A copy of the list of an id.
fn copy_of(lists: &[Option<Vec<Cube>>], id: ExprId) -> Result<Option<Vec<Cube>>, AllocError>
    ensures { IfOk result (λ copy. products_of copy ≡ products_at lists.now id) }
{
    if id.0 >= lists.len() {
        return Ok(None);
    }
    match &lists[id.0] {
        Some(rows) => {
            let copy = rows.clone()?;
            Ok(Some(copy))
        }
        None => Ok(None),
    }
}

/// Puts a list, or none, at an id.
fn put(lists: &mut Vec<Option<Vec<Cube>>>, id: ExprId, rows: Option<Vec<Cube>>)
    ensures { lists.new.items ≡ set lists.old.items id.0 rows }
{
    if id.0 < lists.len() {
        lists[id.0] = rows;
    }
}

impl Kept {
    /// No list, for so many ids.
    pub(crate) fn for_ids(alloc: Global, ids: usize) -> Result<Kept, AllocError>
        ensures { IfOk result KeepsNone }
    {
        let positive = no_lists(alloc, ids)?;
        let negative = no_lists(alloc, ids)?;
        Ok(Kept { positive, negative })
    }

    /// A copy of the list.
    pub(crate) fn copy(&self, bit: SignedBit) -> Result<Option<Vec<Cube>>, AllocError>
        ensures { IfOk result (λ copy. products_of copy ≡ kept_at self.now bit) }
    {
        if bit.positive {
            copy_of(&self.positive, bit.id)
        } else {
            copy_of(&self.negative, bit.id)
        }
    }

    /// Keeps the list, or lets it go.
    pub(crate) fn put(&mut self, bit: SignedBit, rows: Option<Vec<Cube>>)
        ensures { Puts self.old self.new bit rows }
    {
        if bit.positive {
            put(&mut self.positive, bit.id, rows);
        } else {
            put(&mut self.negative, bit.id, rows);
        }
    }
}
