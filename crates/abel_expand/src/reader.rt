//! The expanded text, byte by byte.

ghost use Rattle.std.specs.Prelude.{◌≡◌, ℕ, ◌+◌, ◌<◌, ◌≤◌, ◌++◌, List, [], ◌∷◌, length, Some, None, Ok, Err, IfOk, IfErr, OnOk, IfSome, IfNone, slice_get, true, false};
ghost use Rattle.abel_macros.specs.Kept.{tables_of};
ghost use Rattle.abel_expand.specs.declared.fault.ExpandFault.TheVariants as fault;
ghost use Rattle.text_rewriting.specs.Fronts.{changed, IsChange};
ghost use Rattle.text_rewriting.specs.Marks.{DefinesNone};
ghost use Rattle.abel_expand.specs.Runs.{after, bytes_given, bytes_waiting, byte_in, refusal_in, HasEnded, IsExpanded, IsRefusal};
ghost use Rattle.abel_expand.specs.declared.standing.Origin.TheVariants as origin;
ghost use Rattle.abel_expand.specs.Origins.{StandsThere, next_at};
ghost use Rattle.abel_expand.specs.Stands.{left_to_do};

use crate::fault::ExpandFault;
use crate::standing::{Origin, Standing, copied_at, own_behind, said_at};
use abel_lexer::place_past;
use abel_macros::Tables;
use pld_base::{OutOfMemory, Place};
use std::alloc::{AllocError, Global};
use std::marker::Model;
use text_rewriting::{Change, Front, Unread, look};

/// Gives the expanded text of a text byte by byte. What is still to be read are pieces of the text.
#[derive(Drop)]
pub struct Reader<'a> {
    alloc: Global,
    text: &'a [u8],
    rest: Unread<'a>,
    tables: Tables<'a>,
    said: Vec<u8>,
    at: usize,
    copied: usize,
    place: Place,
    turns: usize,
    given: usize,
    done: usize,
    rewritings: usize,
    refused: Option<ExpandFault>,
    own: usize,
    call: usize,
    form: usize,
    standing: Standing,
}

impl<'a> Model for Reader<'a> {
    ghost use Rattle.std.specs.Prelude.{◌≡◌, ◌≤◌, None, length, drop};
    ghost use Rattle.abel_expand.specs.Runs.{Reading};
    ghost use Rattle.abel_expand.specs.Origins.{call_at};
    ghost use Rattle.abel_expand.specs.Stands.{IsOwnEnd, Stands};

    ghost Value = { Reading };

    ghost view = { λ r. record { text = r.text.now; turns = r.turns; given = r.given; refused = r.refused; standing = r.standing } };

    ghost invariant = { λ r. (r.at ≤ length r.said.items) × (r.refused ≡ None → Stands r.text.now r.turns r.given r.done r.rewritings r.tables (drop r.at r.said.items) r.copied r.rest r.place) × (r.refused ≡ None → IsOwnEnd r.text.now r.turns r.own r.rest) × (r.own ≤ length r.text.now) × (r.call ≤ length r.text.now) × (r.form ≤ length r.text.now) × (r.standing.offset ≤ length r.text.now) × (r.refused ≡ None → call_at r.turns r.text.now ≡ r.call) };
}

/// Defines something.
fn change_tables<'a>(
    alloc: Global,
    tables: &mut Tables<'a>,
    change: Change<'a>,
) -> Result<(), OutOfMemory>
    requires { IsChange change }
    ensures { OnOk result (tables_of tables.new ≡ changed change.entry (tables_of tables.old)) }
{
    match change {
        Change::Nothing => Ok(()),
        Change::Define(name, entry) => tables.define(alloc, name, entry),
        Change::Keep(name, value) => tables.keep(name, value),
        Change::Radix(radix) => {
            tables.set_radix(radix);
            Ok(())
        }
    }
}

impl<'a> Reader<'a> {
    /// A reader that has given nothing. It takes no memory.
    pub fn new(alloc: Global, text: &'a [u8]) -> Reader<'a>
        requires { length text.now ≤ 1048576 }
        ensures text { result.text ≡ text.now }
        ensures given { bytes_given result ≡ [] }
        ensures refused { result.refused ≡ None }
    {
        Reader {
            alloc,
            text,
            rest: Unread::new(alloc, text),
            tables: Tables::new(alloc),
            said: Vec::new(alloc),
            at: 0,
            copied: 0,
            place: Place { line: 1, column: 1 },
            turns: 0,
            given: 0,
            done: 0,
            rewritings: 0,
            refused: None,
            own: text.len(),
            call: 0,
            form: 0,
            standing: Standing {
                offset: 0,
                origin: Origin::Form,
            },
        }
    }

    /// The offset in the source of the byte that was given last: of a byte that a macro represents, that of the outermost
    /// call.
    pub fn offset(&self) -> usize
        ensures offset { result ≡ self.now.standing.offset }
        ensures within { result ≤ length self.now.text }
    {
        self.standing.offset
    }

    /// Whether the byte that was given last is of what a macro represents.
    pub fn is_in_macro(&self) -> bool
        ensures yes { result ≡ true → self.now.standing.origin ≡ origin.Call }
        ensures no { result ≡ false → self.now.standing.origin ≡ origin.Call → ⊥ }
    {
        matches!(self.standing.origin, Origin::Call)
    }

    /// Where the source may have the byte that was given last. Only of a byte that is the source's own it is said that it
    /// does.
    fn origin(&self) -> usize
        ensures { self.now.standing.origin ≡ origin.Source → result ≡ self.now.standing.offset }
    {
        match self.standing.origin {
            Origin::Source => self.standing.offset,
            Origin::Form | Origin::Call => self.rest.rest().offset_before(),
        }
    }

    /// If the source has this byte, which was given last: in the block of a macro or an argument, if it is of one. None of a
    /// byte that the source doesn't have, as the digits of a value.
    pub fn origin_of(&self, byte: u8) -> Option<usize>
        ensures found { IfSome result (λ at. slice_get self.now.text at ≡ Some byte) }
        ensures own { self.now.standing.origin ≡ origin.Source → slice_get self.now.text self.now.standing.offset ≡ Some byte → result ≡ Some self.now.standing.offset }
    {
        let at = self.origin();
        match self.text.get(at) {
            Some(found) if *found == byte => Some(at),
            _ => None,
        }
    }

    /// The offset in the source from which nothing was given yet: that of the outermost call, if a macro is being read.
    pub fn next_offset(&self) -> usize
        ensures within { result ≤ length self.now.text }
        ensures place { self.now.refused ≡ None → bytes_waiting self.now ≡ [] → result ≡ next_at self.now.turns self.now.text }
    {
        let left = self.rest.rest().len();
        let next = copied_at(self.text.len(), self.own, left, self.call);
        next.offset
    }

    /// Gives the next byte that waits.
    fn give(&mut self) -> Option<u8>
        requires { self.old.refused ≡ None }
        ensures some { IfSome result (λ b. bytes_waiting self.old ≡ b ∷ bytes_waiting self.new) }
        ensures step { IfSome result (λ b. self.new ≡ record self.old { given = self.old.given + 1; standing = self.new.standing }) }
        ensures most { IfSome result (λ b. self.old.given < 1048576) }
        ensures none { IfNone result ((bytes_waiting self.old ≡ []) × (self.new ≡ self.old)) }
        ensures there { IfSome result (λ b. StandsThere self.new b) }
        ensures all { IfNone result (self.old.given ≡ length (after self.old.turns self.old.text).done) }
    {
        if self.at < self.said.len() {
            let left = (self.said.len() - self.at) + self.rest.rest().len();
            let byte = self.said[self.at];
            self.at += 1;
            self.given += 1;
            self.standing = said_at(self.own, left, self.form);
            self.place = place_past(self.place, &[byte]);
            return Some(byte);
        }
        if self.copied == 0 {
            return None;
        }
        let left = self.rest.rest().len();
        match self.rest.take_byte() {
            Some(byte) => {
                self.standing = copied_at(self.text.len(), self.own, left, self.call);
                self.copied -= 1;
                self.given += 1;
                self.place = place_past(self.place, &[byte]);
                Some(byte)
            }
            None => None,
        }
    }

    /// Takes a turn of the text, if nothing waits and something is left of it; it is known whether a definition may begin
    /// there.
    fn act(&mut self, may_define: bool) -> Result<(), ExpandFault>
        requires going { self.old.refused ≡ None }
        requires given { bytes_waiting self.old ≡ [] }
        requires some { (after self.old.turns self.old.text).rest ≡ [] → ⊥ }
        requires undefined { may_define ≡ false → DefinesNone (after self.old.turns self.old.text).rest }
        ensures ok { OnOk result (self.new ≡ record self.old { turns = self.old.turns + 1 }) }
        ensures falls { OnOk result (left_to_do (after self.new.turns self.new.text) < left_to_do (after self.old.turns self.old.text)) }
        ensures err { IfErr result (λ e. (self.new.text ≡ self.old.text) × (self.new.turns ≡ self.old.turns) × (self.new.given ≡ self.old.given)) }
        ensures refused { IfErr result (λ e. IsRefusal self.old.text (bytes_given self.old) e) }
    {
        let room = 1048576 - self.done;
        let left = self.rest.rest().len();
        let here = copied_at(self.text.len(), self.own, left, self.call).offset;
        match look(self.alloc, &self.rest, &self.tables, may_define, room)? {
            Front::Copy(count) => {
                self.copied = count;
                self.done += count;
                self.turns += 1;
            }
            Front::Said(change, bytes, end) => {
                self.refused = Some(ExpandFault::OutOfMemory);
                change_tables(self.alloc, &mut self.tables, change)?;
                self.refused = None;
                self.rest.skip(end);
                self.done += bytes.len();
                self.said = bytes;
                self.form = here;
                self.at = 0;
                self.copied = 0;
                self.turns += 1;
            }
            Front::Rewritten(mut result, end, call) => {
                if self.rewritings == 65536 {
                    return Err(ExpandFault::ExpansionLimit(self.place));
                }
                self.refused = Some(ExpandFault::OutOfMemory);
                result.keep(self.alloc, &mut self.tables, call)?;
                self.rest.skip(end);
                self.own = own_behind(self.own, self.rest.rest().len());
                self.call = here;
                self.rest.put_all(result.pieces())?;
                self.refused = None;
                self.copied = 0;
                self.rewritings += 1;
                self.turns += 1;
            }
            Front::TooLong => {
                if self.rewritings == 65536 {
                    return Err(ExpandFault::ExpansionLimit(self.place));
                }
                return Err(ExpandFault::TooLong(self.place));
            }
            Front::BadDirective => return Err(ExpandFault::BadDirective(self.place)),
            Front::Unsupported => return Err(ExpandFault::Unsupported(self.place)),
        }
        Ok(())
    }

    /// Keeps what is known of the places of the text, before the first turn.
    fn begin(&mut self) -> Result<(), AllocError>
        ensures { self.new ≡ self.old }
    {
        if self.turns > 0 {
            return Ok(());
        }
        self.rest.keep_text(self.alloc)
    }

    /// Takes a turn of the text, if nothing waits and something is left of it and what is known of its places is kept.
    fn move_on(&mut self) -> Result<(), ExpandFault>
        requires going { self.old.refused ≡ None }
        requires given { bytes_waiting self.old ≡ [] }
        requires some { (after self.old.turns self.old.text).rest ≡ [] → ⊥ }
        ensures ok { OnOk result (self.new ≡ record self.old { turns = self.old.turns + 1 }) }
        ensures falls { OnOk result (left_to_do (after self.new.turns self.new.text) < left_to_do (after self.old.turns self.old.text)) }
        ensures err { IfErr result (λ e. (self.new.text ≡ self.old.text) × (self.new.turns ≡ self.old.turns) × (self.new.given ≡ self.old.given)) }
        ensures refused { IfErr result (λ e. IsRefusal self.old.text (bytes_given self.old) e) }
    {
        let may_define = self.rest.may_define(self.alloc)?;
        self.act(may_define)
    }

    /// Takes a turn of the text, if nothing waits and something is left of it.
    fn turn(&mut self) -> Result<(), ExpandFault>
        requires going { self.old.refused ≡ None }
        requires given { bytes_waiting self.old ≡ [] }
        requires some { (after self.old.turns self.old.text).rest ≡ [] → ⊥ }
        ensures ok { OnOk result (self.new ≡ record self.old { turns = self.old.turns + 1 }) }
        ensures falls { OnOk result (left_to_do (after self.new.turns self.new.text) < left_to_do (after self.old.turns self.old.text)) }
        ensures err { IfErr result (λ e. (self.new.text ≡ self.old.text) × (self.new.turns ≡ self.old.turns) × (self.new.given ≡ self.old.given)) }
        ensures refused { IfErr result (λ e. IsRefusal self.old.text (bytes_given self.old) e) }
    {
        self.begin()?;
        self.move_on()
    }

    /// Whether nothing is left of the text, if nothing waits.
    fn is_at_end(&self) -> bool
        requires going { self.now.refused ≡ None }
        requires given { bytes_waiting self.now ≡ [] }
        ensures yes { result ≡ true → (after self.now.turns self.now.text).rest ≡ [] }
        ensures no { result ≡ false → (after self.now.turns self.now.text).rest ≡ [] → ⊥ }
    {
        self.rest.rest().len() == 0
    }

    /// The next byte of the expanded text; none at its end, and then for ever. After a refusal every later
    /// call answers the same.
    #[tactic(auto, using(crate::proofs::Growth::one_more, crate::proofs::Growth::kept))]
    pub fn next(&mut self) -> Result<Option<u8>, ExpandFault>
        ensures text { self.new.text ≡ self.old.text }
        ensures bytes { bytes_given self.new ≡ bytes_given self.old ++ byte_in result }
        ensures refused { self.new.refused ≡ refusal_in result }
        ensures there { IfOk result (λ o. IfSome o (λ b. StandsThere self.new b)) }
        ensures count { IfOk result (λ o. IfSome o (λ b. (self.new.given ≡ self.old.given + 1) × (self.old.given < 1048576))) }
        ensures whole { IfOk result (λ o. IfNone o (IsExpanded self.new.text (bytes_given self.new))) }
        ensures cause { self.old.refused ≡ None → IfErr result (λ e. IsRefusal self.new.text (bytes_given self.new) e) }
        ensures again { IfSome self.old.refused (λ e. result ≡ Err e) }
        ensures end { IfOk result (λ o. IfNone o (HasEnded self.new)) }
        ensures ended { HasEnded self.old → result ≡ Ok None }
    {
        if let Some(fault) = self.refused {
            return Err(fault);
        }
        'turns: loop {
            if let Some(byte) = self.give() {
                return Ok(Some(byte));
            }
            if self.is_at_end() {
                return Ok(None);
            }
            if let Err(fault) = self.turn() {
                self.refused = Some(fault);
                return Err(fault);
            }
        }
    }
}
