//! What a text has defined so far.

ghost use Rattle.std.specs.Prelude.{◌≡◌, ◌<◌, ◌≤◌, ◌^◌, length, Some, None, IfOk, IfSome, IfNone, OnOk, option_map};
ghost use Rattle.abel_macros.specs.Prelude.{joined};
ghost use Rattle.abel_macros.specs.Pieces.{names, texts};
ghost use Rattle.abel_macros.specs.Turns.{nothing_defined};
ghost use Rattle.abel_macros.specs.Kept.{tables_of, IsResult};
ghost use Rattle.abel_macros.specs.Rules as spec;

use crate::call::{Call, KeptCall};
use crate::room::{ROOM, Room};
use crate::wholes::{length_within, whole};
use indexmap::IndexMap;
use pld_base::OutOfMemory;
use std::alloc::{AllocError, Global};
use std::marker::Model;
use text_pieces::Piece;

/// A macro: its parameters, none if it is called without parentheses, and its block in pieces.
#[derive(Drop)]
pub struct Macro<'a> {
    parameters: Option<Vec<Vec<u8>>>,
    block: Vec<Piece<'a>>,
}

impl<'a> Model for Macro<'a> {
    ghost use Rattle.std.specs.Prelude.{◌<◌, ◌^◌, length, option_map};
    ghost use Rattle.text_pieces.specs.Stacks.{joined};
    ghost use Rattle.abel_macros.specs.Pieces.{names};
    ghost use Rattle.abel_macros.specs.Rules as spec;

    ghost Value = { spec.Macro };

    ghost view = { λ m. record { parameters = option_map (λ ps. names ps.items) m.parameters; block = joined m.block.items } };

    ghost invariant = { λ m. length (joined m.block.items) < 2 ^ 63 };
}

/// The macros, the values of names and the radix in force; the call that was kept last, which is one of these macros; and the
/// room for texts that are kept.
#[derive(Drop)]
pub struct Tables<'a> {
    macros: IndexMap<Vec<u8>, Macro<'a>>,
    values: IndexMap<Vec<u8>, u32>,
    radix: u32,
    last: Option<KeptCall<'a>>,
    room: Room,
}

impl<'a> Model for Tables<'a> {
    ghost use Rattle.std.specs.Prelude.{◌≤◌, IfSome};
    ghost use Rattle.text_pieces.specs.Stacks.{joined};
    ghost use Rattle.abel_macros.specs.Kept.{Kept, by_bytes, under, IsResult};
    ghost use Rattle.abel_macros.specs.Pieces.{names};

    ghost Value = { Kept };

    ghost view = { λ t. record { macros = by_bytes t.macros.entries; values = by_bytes t.values.entries; radix = t.radix } };

    ghost invariant = { λ t. (2 ≤ t.radix) × (t.radix ≤ 16) × IfSome t.last (λ c. IsResult (under (by_bytes t.macros.entries)) c.name.items (names c.arguments.items) (joined c.text.items)) };
}

impl<'a> Macro<'a> {
    /// A macro of these parameters and this block.
    pub fn new(parameters: Option<Vec<Vec<u8>>>, block: Vec<Piece<'a>>) -> Macro<'a>
        requires { length (joined block.items) < 2 ^ 63 }
        ensures { result ≡ record { parameters = option_map (λ ps. names ps.items) parameters; block = joined block.entry.items } }
    {
        Macro { parameters, block }
    }

    /// Its parameters, if it is called with parentheses.
    pub fn parameters(&self) -> Option<&[Vec<u8>]>
        ensures some { IfSome result (λ ps. self.now.parameters ≡ Some (names ps.now)) }
        ensures none { IfNone result (self.now.parameters ≡ None) }
    {
        match &self.parameters {
            Some(parameters) => Some(parameters.as_slice()),
            None => None,
        }
    }

    /// Its block, in pieces.
    pub fn block(&self) -> &[Piece<'a>]
        ensures text { joined result.now ≡ self.now.block }
        ensures bytes { length (joined result.now) < 2 ^ 63 }
        ensures pieces { length result.now < 2 ^ 58 }
    {
        self.block.as_slice()
    }
}

impl<'a> Tables<'a> {
    /// Nothing defined, radix 10. It takes no memory.
    pub fn new(alloc: Global) -> Tables<'a>
        ensures { tables_of result ≡ nothing_defined }
    {
        Tables {
            macros: IndexMap::new(alloc),
            values: IndexMap::new(alloc),
            radix: 10,
            last: None,
            room: Room::new(alloc),
        }
    }

    /// The radix in force.
    pub fn radix(&self) -> u32
        ensures value { result ≡ self.now.radix }
        ensures low { 2 ≤ result }
        ensures high { result ≤ 16 }
    {
        self.radix
    }

    /// Sets the radix in force.
    pub fn set_radix(&mut self, radix: u32)
        requires low { 2 ≤ radix }
        requires high { radix ≤ 16 }
        ensures { self.new ≡ record self.old { radix = radix } }
    {
        self.radix = radix;
    }

    /// The macro of a name.
    pub fn macro_of(&self, name: &[u8]) -> Option<&Macro<'a>>
        ensures some { IfSome result (λ m. (tables_of self.now).macros name.now ≡ Some m.now) }
        ensures none { IfNone result ((tables_of self.now).macros name.now ≡ None) }
    {
        self.macros.get(name)
    }

    /// The value of a name.
    pub fn value(&self, name: &[u8]) -> Option<u32>
        ensures { result ≡ (tables_of self.now).values name.now }
    {
        match self.values.get(name) {
            Some(value) => Some(*value),
            None => None,
        }
    }

    /// Whether a name is a macro or has a value.
    pub fn is_defined(&self, name: &[u8]) -> bool
        ensures { result ≡ spec.is_defined (tables_of self.now) name.now }
    {
        self.macro_of(name).is_some() || self.value(name).is_some()
    }

    /// The longest text of so many pieces that it is worth to make one piece.
    pub fn worth(&mut self, pieces: usize) -> usize
        ensures { self.new ≡ self.old }
    {
        self.room.worth(pieces)
    }

    /// One piece of a text in pieces, if it has at most so many bytes and there is room to keep them.
    pub fn whole(
        &mut self,
        alloc: Global,
        pieces: &[Piece<'a>],
        most: usize,
    ) -> Result<Option<Vec<Piece<'a>>>, AllocError>
        ensures text { IfOk result (λ o. IfSome o (λ w. joined w.items ≡ joined pieces.now)) }
        ensures same { self.new ≡ self.old }
    {
        let Some(count) = length_within(pieces, most.min(ROOM)) else {
            return Ok(None);
        };
        if !self.room.has(alloc, count)? {
            return Ok(None);
        }
        let piece = Piece::kept(alloc, pieces)?;
        self.room.hold(&piece, count)?;
        Ok(Some(whole(alloc, piece)?))
    }

    /// A macro with its block in one piece, if there is room to keep that: then it is quick to find if a block within it
    /// ends, however often the macro is called.
    fn settled(&mut self, alloc: Global, entry: Macro<'a>) -> Result<Macro<'a>, AllocError>
        ensures entry { IfOk result (λ m. m ≡ entry.entry) }
        ensures same { self.new ≡ self.old }
    {
        if entry.block.len() < 2 {
            return Ok(entry);
        }
        let Some(block) = self.whole(alloc, &entry.block, usize::MAX)? else {
            return Ok(entry);
        };
        Ok(Macro {
            parameters: entry.parameters,
            block,
        })
    }

    /// Puts a macro in the place of an older one of its name, and forgets the call that was kept.
    fn insert(&mut self, name: Vec<u8>, entry: Macro<'a>) -> Result<(), OutOfMemory>
        ensures { OnOk result (tables_of self.new ≡ record (tables_of self.old) { macros = spec.with_name name.items entry.entry (tables_of self.old).macros }) }
    {
        self.last = None;
        self.macros.insert(name, entry)?;
        Ok(())
    }

    /// Keeps a macro; an older one of its name is replaced.
    pub fn define(
        &mut self,
        alloc: Global,
        name: Vec<u8>,
        entry: Macro<'a>,
    ) -> Result<(), OutOfMemory>
        ensures { OnOk result (tables_of self.new ≡ record (tables_of self.old) { macros = spec.with_name name.items entry.entry (tables_of self.old).macros }) }
    {
        let settled = self.settled(alloc, entry)?;
        self.insert(name, settled)
    }

    /// Keeps the value of a name; an older one is replaced.
    pub fn keep(&mut self, name: Vec<u8>, value: u32) -> Result<(), OutOfMemory>
        ensures { OnOk result (tables_of self.new ≡ record (tables_of self.old) { values = spec.with_name name.items value (tables_of self.old).values }) }
    {
        self.values.insert(name, value)?;
        Ok(())
    }

    /// The result of a call, if it is the one that was kept.
    #[tactic(auto, using(crate::proofs::Calls::same_call))]
    pub fn result_of(&self, name: &[u8], arguments: &[Vec<Piece<'a>>]) -> Option<&[Piece<'a>]>
        ensures { IfSome result (λ w. IsResult (tables_of self.now).macros name.now (texts arguments.now) (joined w.now)) }
    {
        match &self.last {
            Some(call) => {
                if call.is_of(name, arguments) {
                    Some(call.text.as_slice())
                } else {
                    None
                }
            }
            None => None,
        }
    }

    /// Keeps a call with its result, in place of the one before, until a macro is defined.
    #[tactic(auto, using(crate::proofs::Calls::same_call))]
    pub fn keep_call(
        &mut self,
        alloc: Global,
        call: Call<'a>,
        text: Vec<Piece<'a>>,
    ) -> Result<(), AllocError>
        requires { IsResult (tables_of self.old).macros call.name.items (texts call.arguments.items) (joined text.items) }
        ensures { self.new ≡ self.old }
    {
        self.last = Some(KeptCall::new(alloc, call, text)?);
        Ok(())
    }
}
