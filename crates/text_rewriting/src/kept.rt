//! Results that are kept: as one piece, and with the calls that make them.

ghost use Rattle.std.specs.Prelude.{◌≡◌};
ghost use Rattle.text_rewriting.specs.Prelude.{tables_of, IsResult, texts};
ghost use Rattle.text_rewriting.specs.Fronts.{IsMade};

use crate::gathered::Gathered;
use abel_macros::{Call, Tables};
use std::alloc::{AllocError, Global};
use text_pieces::Piece;

/// A result of so many pieces may be made one piece.
const MANY: usize = 8;

/// The fewest bytes of a result that is kept with its call. To replace again what makes fewer costs little.
const LONG: usize = 1024;

/// How many bytes arguments have.
fn length_of(arguments: &[Vec<Piece>]) -> usize {
    let mut length: usize = 0;
    for argument in arguments {
        for piece in argument {
            length = length.saturating_add(piece.len());
        }
    }
    length
}

/// Keeps a call with its result in one piece: a long one, and no longer arguments. Then it costs less to compare the arguments
/// than to replace them again.
#[tactic(auto, using(crate::proofs::Gathers::joined_one))]
fn keep_call<'a>(
    alloc: Global,
    tables: &mut Tables<'a>,
    call: Call<'a>,
    piece: &Piece<'a>,
) -> Result<(), AllocError>
    requires { IsResult (tables_of tables.old).macros call.name.items (texts call.arguments.items) piece.now }
    ensures { tables.new ≡ tables.old }
{
    if piece.len() < LONG || piece.len() < length_of(&call.arguments) {
        return Ok(());
    }
    let mut text = Vec::new(alloc);
    text.push(piece.clone()?)?;
    tables.keep_call(alloc, call, text)
}

impl<'a> Gathered<'a> {
    /// Makes one piece of many, if it is worth that and there is room to keep it, and says whether it did.
    fn settle(&mut self, alloc: Global, tables: &mut Tables<'a>) -> Result<bool, AllocError>
        ensures text { self.new ≡ self.old }
        ensures tables { tables.new ≡ tables.old }
    {
        let count = self.pieces().len();
        if count < MANY {
            return Ok(false);
        }
        let most = tables.worth(count);
        let Some(whole) = tables.whole(alloc, self.pieces(), most)? else {
            return Ok(false);
        };
        self.stand_in(whole);
        Ok(true)
    }

    /// Makes one piece of many small ones, if there is room to keep it, and keeps the call that makes it. The call of a result
    /// that was few pieces isn't kept: to copy its arguments would cost more than to replace them again.
    #[tactic(auto, using(crate::proofs::Gathers::joined_only))]
    pub fn keep(
        &mut self,
        alloc: Global,
        tables: &mut Tables<'a>,
        call: Option<Call<'a>>,
    ) -> Result<(), AllocError>
        requires { IsMade (tables_of tables.old) self.old.text call }
        ensures text { self.new ≡ self.old }
        ensures tables { tables.new ≡ tables.old }
    {
        if !self.settle(alloc, tables)? {
            return Ok(());
        }
        let Some(call) = call else {
            return Ok(());
        };
        let [piece] = self.pieces() else {
            return Ok(());
        };
        keep_call(alloc, tables, call, piece)
    }
}
