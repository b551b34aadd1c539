//! Blocks in which arguments represent parameters.

ghost use Rattle.std.specs.Prelude.{◌≡◌, ◌==◌, ◌+◌, ◌++◌, ◌<◌, ◌≤◌, ◌^◌, length, take, drop, true, false, Some, None, IfSome, IfNone, IfOk, OnOk, IfErr};
ghost use Rattle.text_rewriting.specs.Prelude.{count_by, ahead, joined, asked, replaced, standing_for, starts_byte, rest_of, names, texts, each_replaced};
ghost use Rattle.text_rewriting.specs.Bound.{bound};
ghost use Rattle.text_rewriting.specs.declared.gathered.Shortage.TheVariants as shortage;

use crate::bound::Arguments;
use crate::gathered::{Gathered, Shortage};
use abel_macros::{STRETCH, is_next, read, skip_without, word_len};
use std::alloc::{AllocError, Global};
use text_pieces::{Ahead, Piece, Rest};

/// How long the name after the `?` ahead is; 0 if there isn't one.
fn asked_len(at: &Ahead) -> usize
    requires { starts_byte 63 (ahead at.now) ≡ true }
    ensures value { result ≡ length (asked (rest_of (ahead at.now))) }
    ensures within { 1 + result ≤ length (ahead at.now) }
{
    let mut look = at.fork();
    let _mark = look.step();
    word_len(&look)
}

/// The argument that represents the `?` ahead and the name after it. Only a name that isn't in one piece is copied.
#[tactic(auto, using(crate::proofs::Replaces::asked_front, crate::proofs::Replaces::asked_read))]
fn asked_argument<'m, 'a>(
    alloc: Global,
    at: &Ahead<'_, 'a>,
    arguments: &Arguments<'m, 'a>,
) -> Result<Option<&'m [Piece<'a>]>, AllocError>
    requires { starts_byte 63 (ahead at.now) ≡ true }
    ensures some { IfOk result (λ o. IfSome o (λ a. bound arguments.now.by_name.entries (asked (rest_of (ahead at.now))) ≡ Some (joined a.now))) }
    ensures none { IfOk result (λ o. IfNone o (bound arguments.now.by_name.entries (asked (rest_of (ahead at.now))) ≡ None)) }
{
    let mut look = at.fork();
    let _mark = look.step();
    let count = word_len(&look);
    let front = look.front();
    if front.len() >= count {
        let (name, _behind) = front.split_at(count);
        return Ok(arguments.of(name));
    }
    let name = read(alloc, &mut look, count)?;
    Ok(arguments.of(&name))
}

/// Whether a `?` is ahead, and a parameter after it. If not, the next byte stays.
#[tactic(auto, using(crate::proofs::Replaces::unmarked_stays, crate::proofs::Replaces::unasked_stays))]
fn is_replaced(alloc: Global, at: &Ahead, arguments: &Arguments) -> Result<bool, AllocError>
    ensures yes { IfOk result (λ o. o ≡ true → starts_byte 63 (ahead at.now) ≡ true) }
    ensures no { IfOk result (λ o. o ≡ false → replaced (bound arguments.now.by_name.entries) 0 (ahead at.now) ≡ take 1 (ahead at.now) ++ replaced (bound arguments.now.by_name.entries) 0 (drop 1 (ahead at.now))) }
{
    if !is_next(at, b'?') {
        return Ok(false);
    }
    match asked_argument(alloc, at, arguments)? {
        Some(_argument) => Ok(true),
        None => Ok(false),
    }
}

/// Passes bytes among which no `?` is, and says how many: those of which that is known, or stretches unless more bytes are
/// to be passed singly before.
fn skip_unmarked(at: &mut Ahead, singly: usize) -> usize
    ensures none { count_by (λ b. b == 63) (take result (ahead at.old)) ≡ 0 }
    ensures ahead { ahead at.new ≡ drop result (ahead at.old) }
    ensures within { result ≤ length (ahead at.old) }
    ensures whole { at.new.whole ≡ at.old.whole }
{
    let known = at.unmarked_len();
    if known > 0 {
        at.skip(known);
        return known;
    }
    if singly > 0 {
        return 0;
    }
    skip_without(at, b'?')
}

/// How many of the next bytes stay: those before the next `?` with a parameter after it. So many bytes are passed singly
/// before stretches without a `?` are.
fn kept_len(alloc: Global, at: &Ahead, arguments: &Arguments) -> Result<usize, AllocError>
    ensures value { IfOk result (λ n. take n (ahead at.now) ++ replaced (bound arguments.now.by_name.entries) 0 (drop n (ahead at.now)) ≡ replaced (bound arguments.now.by_name.entries) 0 (ahead at.now)) }
    ensures within { IfOk result (λ n. n ≤ length (ahead at.now)) }
    ensures asked { IfOk result (λ n. n < length (ahead at.now) → starts_byte 63 (drop n (ahead at.now)) ≡ true) }
{
    at.fits();
    let mut look = at.fork();
    let mut count = 0;
    let mut singly = STRETCH;
    'bytes: while look.left() > 0 {
        if is_replaced(alloc, &look, arguments)? {
            return Ok(count);
        }
        let _byte = look.step();
        count += 1;
        count += skip_unmarked(&mut look, singly);
        singly = singly.checked_sub(1).unwrap_or(STRETCH);
    }
    Ok(count)
}

impl<'a> Gathered<'a> {
    /// Takes the first bytes of a text, and adds them at the end.
    fn add_cut(&mut self, alloc: Global, rest: &mut Rest<'a>, count: usize) -> Result<(), Shortage>
        requires { count ≤ length rest.old }
        ensures ok { OnOk result (self.new ≡ record self.old { text = self.old.text ++ take count rest.old }) }
        ensures rest { OnOk result (rest.new ≡ drop count rest.old) }
        ensures long { IfErr result (λ e. e ≡ shortage.TooLong → self.old.most < length (self.old.text ++ take count rest.old)) }
    {
        let pieces = rest.cut(alloc, count)?;
        self.add_all(&pieces)
    }

    /// Takes a `?` and the name after it, and adds what represents them.
    #[tactic(auto, using(crate::proofs::Replaces::asked_some, crate::proofs::Replaces::asked_none, crate::proofs::Replaces::asked_long, crate::proofs::Replaces::none_long, crate::proofs::Replaces::shorter, crate::proofs::Replaces::marked))]
    fn add_asked(
        &mut self,
        alloc: Global,
        rest: &mut Rest<'a>,
        arguments: &Arguments<'_, 'a>,
    ) -> Result<(), Shortage>
        requires { starts_byte 63 rest.old ≡ true }
        ensures text { OnOk result (self.new.text ++ replaced (bound arguments.now.by_name.entries) 0 rest.new ≡ self.old.text ++ replaced (bound arguments.now.by_name.entries) 0 rest.old) }
        ensures most { OnOk result (self.new.most ≡ self.old.most) }
        ensures falls { OnOk result (length rest.new < length rest.old) }
        ensures long { IfErr result (λ e. e ≡ shortage.TooLong → self.old.most < length (self.old.text ++ replaced (bound arguments.now.by_name.entries) 0 rest.old)) }
    {
        match asked_argument(alloc, &rest.ahead(), arguments)? {
            Some(argument) => {
                self.add_all(argument)?;
                let count = asked_len(&rest.ahead());
                rest.skip(1 + count);
                Ok(())
            }
            None => self.add_cut(alloc, rest, 1),
        }
    }

    /// Takes the bytes that stay, and adds them at the end; a `?` is in front then, or nothing is left.
    #[tactic(auto, using(crate::proofs::Replaces::kept_run, crate::proofs::Replaces::kept_long, crate::proofs::Replaces::left_some))]
    fn add_kept(
        &mut self,
        alloc: Global,
        rest: &mut Rest<'a>,
        arguments: &Arguments<'_, 'a>,
    ) -> Result<(), Shortage>
        ensures text { OnOk result (self.new.text ++ replaced (bound arguments.now.by_name.entries) 0 rest.new ≡ self.old.text ++ replaced (bound arguments.now.by_name.entries) 0 rest.old) }
        ensures most { OnOk result (self.new.most ≡ self.old.most) }
        ensures within { OnOk result (length rest.new ≤ length rest.old) }
        ensures marked { OnOk result (0 < length rest.new → starts_byte 63 rest.new ≡ true) }
        ensures long { IfErr result (λ e. e ≡ shortage.TooLong → self.old.most < length (self.old.text ++ replaced (bound arguments.now.by_name.entries) 0 rest.old)) }
    {
        let count = kept_len(alloc, &rest.ahead(), arguments)?;
        self.add_cut(alloc, rest, count)
    }

    /// Takes the bytes that stay, and adds them at the end; then a `?` and the name after it, and adds what represents them.
    #[tactic(auto, using(crate::proofs::Replaces::both_long))]
    fn add_part(
        &mut self,
        alloc: Global,
        rest: &mut Rest<'a>,
        arguments: &Arguments<'_, 'a>,
    ) -> Result<(), Shortage>
        requires { 0 < length rest.old }
        ensures text { OnOk result (self.new.text ++ replaced (bound arguments.now.by_name.entries) 0 rest.new ≡ self.old.text ++ replaced (bound arguments.now.by_name.entries) 0 rest.old) }
        ensures most { OnOk result (self.new.most ≡ self.old.most) }
        ensures falls { OnOk result (length rest.new < length rest.old) }
        ensures long { IfErr result (λ e. e ≡ shortage.TooLong → self.old.most < length (self.old.text ++ replaced (bound arguments.now.by_name.entries) 0 rest.old)) }
    {
        self.add_kept(alloc, rest, arguments)?;
        if rest.len() == 0 {
            return Ok(());
        }
        self.add_asked(alloc, rest, arguments)
    }

    /// Adds a block in which each parameter after a `?` is replaced by its argument.
    #[tactic(auto, using(crate::proofs::Replaces::block_added, crate::proofs::Replaces::block_long))]
    fn add_bound(
        &mut self,
        alloc: Global,
        block: &[Piece<'a>],
        arguments: &Arguments<'_, 'a>,
    ) -> Result<(), Shortage>
        requires bytes { length (joined block.now) < 2 ^ 63 }
        requires pieces { length block.now < 2 ^ 58 }
        ensures ok { OnOk result (self.new ≡ record self.old { text = self.old.text ++ replaced (bound arguments.now.by_name.entries) 0 (joined block.now) }) }
        ensures long { IfErr result (λ e. e ≡ shortage.TooLong → self.old.most < length (self.old.text ++ replaced (bound arguments.now.by_name.entries) 0 (joined block.now))) }
    {
        let mut rest = Rest::new(alloc, &[]);
        rest.put_all(block)?;
        'parts: while rest.len() > 0 {
            self.add_part(alloc, &mut rest, arguments)?;
        }
        Ok(())
    }

    /// Adds a block in which each of these parameters after a `?` is replaced by its argument.
    pub fn add_replaced(
        &mut self,
        alloc: Global,
        block: &[Piece<'a>],
        parameters: &[Vec<u8>],
        arguments: &[Vec<Piece<'a>>],
    ) -> Result<(), Shortage>
        requires bytes { length (joined block.now) < 2 ^ 63 }
        requires pieces { length block.now < 2 ^ 58 }
        ensures ok { OnOk result (self.new ≡ record self.old { text = self.old.text ++ replaced (standing_for (names parameters.now) (texts arguments.now)) 0 (joined block.now) }) }
        ensures long { IfErr result (λ e. e ≡ shortage.TooLong → self.old.most < length (self.old.text ++ replaced (standing_for (names parameters.now) (texts arguments.now)) 0 (joined block.now))) }
    {
        let bound = Arguments::new(alloc, parameters, arguments)?;
        self.add_bound(alloc, block, &bound)
    }

    /// Adds a block once for each argument, which represents the parameter.
    #[tactic(auto, using(crate::proofs::Replaces::each_next, crate::proofs::Replaces::each_long, crate::proofs::Replaces::each_added))]
    pub fn add_each(
        &mut self,
        alloc: Global,
        parameter: Vec<u8>,
        arguments: &[Vec<Piece<'a>>],
        block: &[Piece<'a>],
    ) -> Result<(), Shortage>
        requires bytes { length (joined block.now) < 2 ^ 63 }
        requires pieces { length block.now < 2 ^ 58 }
        ensures ok { OnOk result (self.new ≡ record self.old { text = self.old.text ++ each_replaced parameter.items (texts arguments.now) (joined block.now) }) }
        ensures long { IfErr result (λ e. e ≡ shortage.TooLong → self.old.most < length (self.old.text ++ each_replaced parameter.items (texts arguments.now) (joined block.now))) }
    {
        let parameters = [parameter];
        let mut at = 0;
        'arguments: while at < arguments.len() {
            let (_passed, left) = arguments.split_at(at);
            let (one, _more) = left.split_at(1);
            self.add_replaced(alloc, block, &parameters, one)?;
            at += 1;
        }
        Ok(())
    }
}
