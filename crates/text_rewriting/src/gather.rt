//! The result of a rewriting, gathered.

ghost use Rattle.std.specs.Prelude.{◌≡◌, ◌++◌, ◌<◌, ◌≤◌, length, OnOk, IfOk, IfErr};
ghost use Rattle.text_rewriting.specs.Prelude.{joined, Tables};
ghost use Rattle.text_rewriting.specs.Fronts.{IsMade};
ghost use Rattle.text_rewriting.specs.RuleMoves.{digits, rewriting_text, IsCallOf, IsRewriting};
ghost use Rattle.text_rewriting.specs.declared.rules.Rewriting.TheVariants as rewriting;
ghost use Rattle.text_rewriting.specs.declared.gathered.Shortage.TheVariants as shortage;

use crate::gathered::{Gathered, Shortage};
use crate::rules::{Called, Rewriting};
use abel_macros::{Call, Each};
use std::alloc::Global;
use text_pieces::Piece;

impl<'a> Gathered<'a> {
    /// Adds a block, and a value's digits in a radix.
    #[tactic(auto, using(crate::proofs::Gathers::two_added, crate::proofs::Gathers::first_long, crate::proofs::Gathers::second_long))]
    fn add_valued(&mut self, block: &[Piece<'a>], value: u32, radix: u32) -> Result<(), Shortage>
        requires low { 2 ≤ radix }
        requires high { radix ≤ 16 }
        ensures ok { OnOk result (self.new ≡ record self.old { text = self.old.text ++ (joined block.now ++ digits radix value) }) }
        ensures long { IfErr result (λ e. e ≡ shortage.TooLong → self.old.most < length (self.old.text ++ (joined block.now ++ digits radix value))) }
    {
        self.add_all(block)?;
        self.add_number(radix, value)?;
        Ok(())
    }

    /// Adds the result of a call.
    #[tactic(auto, using(crate::proofs::Moves::call_result))]
    fn add_call(
        &mut self,
        alloc: Global,
        called: Called<'_, 'a>,
    ) -> Result<Option<Call<'a>>, Shortage>
        requires { IsRewriting (rewriting.Called called) }
        ensures ok { OnOk result (self.new ≡ record self.old { text = self.old.text ++ rewriting_text (rewriting.Called called.entry) }) }
        ensures made { IfOk result (λ o. (t : Tables) → IsCallOf t (rewriting.Called called.entry) → IsMade t (rewriting_text (rewriting.Called called.entry)) o) }
        ensures long { IfErr result (λ e. e ≡ shortage.TooLong → self.old.most < length (self.old.text ++ rewriting_text (rewriting.Called called.entry))) }
    {
        self.add_replaced(alloc, called.block, called.parameters, &called.arguments)?;
        Ok(Some(Call {
            name: called.name,
            arguments: called.arguments,
        }))
    }

    /// Adds the result of a rewriting; the call that makes it is beside it.
    #[tactic(auto, using(crate::proofs::Gathers::added_none))]
    fn add_rewriting(
        &mut self,
        alloc: Global,
        rewriting: Rewriting<'_, 'a>,
    ) -> Result<Option<Call<'a>>, Shortage>
        requires { IsRewriting rewriting }
        ensures ok { OnOk result (self.new ≡ record self.old { text = self.old.text ++ rewriting_text rewriting.entry }) }
        ensures made { IfOk result (λ o. (t : Tables) → IsCallOf t rewriting.entry → IsMade t (rewriting_text rewriting.entry) o) }
        ensures long { IfErr result (λ e. e ≡ shortage.TooLong → self.old.most < length (self.old.text ++ rewriting_text rewriting.entry)) }
    {
        match rewriting {
            Rewriting::Called(called) => return self.add_call(alloc, called),
            Rewriting::Nothing => {}
            Rewriting::Block(block) => self.add_all(&block)?,
            Rewriting::Repeated(count, block) => self.repeat(&block, count)?,
            Rewriting::Each(each) => {
                let Each {
                    parameter,
                    arguments,
                    block,
                } = each;
                self.add_each(alloc, parameter, &arguments, &block)?;
            }
            Rewriting::Valued(block, value, radix) => self.add_valued(&block, value, radix)?,
            Rewriting::Plain(block) => self.add_all(block)?,
        }
        Ok(None)
    }
}

/// The result of a rewriting, if it has at most so many bytes, and the call that makes it, if one does.
pub fn gather<'a>(
    alloc: Global,
    rewriting: Rewriting<'_, 'a>,
    most: usize,
) -> Result<(Gathered<'a>, Option<Call<'a>>), Shortage>
    requires { IsRewriting rewriting }
    ensures text { IfOk result (λ g. g.0 ≡ record { text = rewriting_text rewriting.entry; most = most }) }
    ensures made { IfOk result (λ g. (t : Tables) → IsCallOf t rewriting.entry → IsMade t (rewriting_text rewriting.entry) g.1) }
    ensures long { IfErr result (λ e. e ≡ shortage.TooLong → most < length (rewriting_text rewriting.entry)) }
{
    let mut result = Gathered::new(alloc, most);
    let call = result.add_rewriting(alloc, rewriting)?;
    Ok((result, call))
}
