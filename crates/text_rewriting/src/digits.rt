//! Numbers in digits.

ghost use Rattle.std.specs.Prelude.{◌≡◌, [], ◌∷◌, ◌++◌, ◌<◌, ◌≤◌, codes, length, slice_index, OnOk, IfErr};
ghost use Rattle.text_rewriting.specs.Prelude.{digits_in};
ghost use Rattle.text_rewriting.specs.RuleMoves.{digits};
ghost use Rattle.text_rewriting.specs.declared.gathered.Shortage.TheVariants as shortage;

use crate::gathered::{Gathered, Shortage};
use text_pieces::Piece;

const DIGITS: &[u8] = b"0123456789ABCDEF";

/// The digit of a value.
#[tactic(auto, using(crate::proofs::DigitSteps::digit_at))]
fn digit(value: u32) -> &'static [u8]
    requires { value < 16 }
    ensures { result.now ≡ slice_index (codes "0123456789ABCDEF") value ∷ [] }
{
    let (_lower, higher) = DIGITS.split_at(value as usize);
    let (digit, _more) = higher.split_at(1);
    digit
}

impl<'a> Gathered<'a> {
    /// Adds the digits of a value in a radix, at most so many.
    #[tactic(auto, using(crate::proofs::DigitSteps::no_digits, crate::proofs::DigitSteps::one_added, crate::proofs::DigitSteps::one_long, crate::proofs::DigitSteps::more_added, crate::proofs::DigitSteps::more_long, crate::proofs::DigitSteps::last_long))]
    fn add_digits(&mut self, radix: u32, value: u32, most: u32) -> Result<(), Shortage>
        requires low { 2 ≤ radix }
        requires high { radix ≤ 16 }
        ensures ok { OnOk result (self.new ≡ record self.old { text = self.old.text ++ digits_in most radix value }) }
        ensures long { IfErr result (λ e. e ≡ shortage.TooLong → self.old.most < length (self.old.text ++ digits_in most radix value)) }
    {
        if most == 0 {
            return Ok(());
        }
        if value < radix {
            self.add(Piece::computed(digit(value)))?;
            return Ok(());
        }
        match self.add_digits(radix, value / radix, most - 1) {
            Ok(()) => {
                self.add(Piece::computed(digit(value % radix)))?;
                Ok(())
            }
            Err(shortage) => Err(shortage),
        }
    }

    /// Adds a value in a radix.
    pub fn add_number(&mut self, radix: u32, value: u32) -> Result<(), Shortage>
        requires low { 2 ≤ radix }
        requires high { radix ≤ 16 }
        ensures ok { OnOk result (self.new ≡ record self.old { text = self.old.text ++ digits radix value }) }
        ensures long { IfErr result (λ e. e ≡ shortage.TooLong → self.old.most < length (self.old.text ++ digits radix value)) }
    {
        self.add_digits(radix, value, 32)
    }
}
