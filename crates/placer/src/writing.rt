//! What is written into a placed module.

ghost use Rattle.std.specs.Prelude.{◌≡◌, [], ◌∷◌, IfOk, OnOk, ◌++◌};
ghost use Rattle.placer.specs.Prelude.{view_decl, view_stmt};
ghost use Rattle.placer.specs.PlacedModule.{item_at, register_string, released, span_at};

use abel_tree::{Assign, Expr, Extension, Item, Number, Sign, Span, Stmt, Word};
use pld_base::{ListOf, NameText, OutOfMemory, Place};
use std::alloc::Global;

/// A word at a place.
pub(crate) fn word_at(alloc: Global, place: Place, text: &[u8]) -> Result<Word, OutOfMemory>
    ensures { IfOk result (λ w. w ≡ record { text = text.now; place = place }) }
{
    Ok(Word {
        text: NameText::new(alloc, text)?,
        place,
    })
}

/// A number alone, at a place.
pub(crate) fn span_at(place: Place, value: u32) -> Span
    ensures { result ≡ span_at place value }
{
    Span {
        first: Number { value, place },
        last: None,
    }
}

/// A name alone, at a place.
pub(crate) fn item_at(
    alloc: Global,
    place: Place,
    name: &[u8],
    negated: bool,
) -> Result<Item, OutOfMemory>
    ensures { IfOk result (λ i. i ≡ item_at place name.now negated) }
{
    Ok(Item {
        negated,
        first: word_at(alloc, place, name)?,
        last: None,
    })
}

/// `name.OE = 0`
pub(crate) fn released(alloc: Global, place: Place, name: &[u8]) -> Result<Stmt, OutOfMemory>
    ensures { IfOk result (λ s. view_stmt s ≡ released place name.now) }
{
    Ok(Stmt::Assign(Assign {
        place,
        complement: false,
        target: Expr::Name {
            word: word_at(alloc, place, name)?,
            extension: Some(Extension::Oe),
        },
        sign: Sign::Equal,
        sign_place: place,
        value: Expr::Number(Number { value: 0, place }),
    }))
}

/// A list of one.
pub(crate) fn only<T: Drop>(alloc: Global, entry: T) -> Result<ListOf<T>, OutOfMemory>
    ensures { IfOk result (λ l. l ≡ entry ∷ []) }
{
    let mut list = Vec::new(alloc);
    list.push(entry)?;
    Ok(ListOf::from_vec(list))
}

/// Equal words.
pub(crate) fn copies(alloc: Global, words: &[Word]) -> Result<ListOf<Word>, OutOfMemory>
    ensures { IfOk result (λ l. l ≡ words.now) }
{
    let mut list = Vec::new(alloc);
    for word in words {
        list.push(word.copy(alloc)?)?;
    }
    Ok(ListOf::from_vec(list))
}

/// The attributes of a node that becomes a pin.
pub(crate) fn register_string(dc: bool) -> &'static [u8]
    ensures { result.now ≡ register_string dc }
{
    if dc {
        b"'reg,buffer,dc'"
    } else {
        b"'reg,buffer'"
    }
}
