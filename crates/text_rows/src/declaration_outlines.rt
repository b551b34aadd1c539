//! Declarations as short texts.

use crate::expression_outlines::{put_expr, put_number, put_word};
use crate::statement_outlines::put_dont_care;
use abel_tree::{Decl, Item, Span, Word};
use test_rows::Found;

/// Words, each with a blank after it.
pub fn put_words(found: &mut Found, words: &[Word]) {
    for word in words {
        put_word(found, word);
        found.text(" ");
    }
}

/// Items with their ranges.
fn put_items(found: &mut Found, items: &[Item]) {
    for item in items {
        found.text(if item.negated { "!" } else { "" });
        put_word(found, &item.first);
        if let Some(last) = &item.last {
            found.text("..");
            put_word(found, last);
        }
        found.text(" ");
    }
}

/// Numbers with their ranges.
fn put_spans(found: &mut Found, spans: &[Span]) {
    for span in spans {
        put_number(found, span.first.value);
        if let Some(last) = span.last {
            found.text("..");
            put_number(found, last.value);
        }
        found.text(" ");
    }
}

/// The names of a declaration, its kind, its numbers and its words.
fn put_declared(found: &mut Found, kind: &str, items: &[Item], spans: &[Span], words: &[Word]) {
    put_items(found, items);
    found.text(kind);
    put_spans(found, spans);
    put_words(found, words);
    found.text("; ")
}

/// A declaration.
pub fn put_decl(found: &mut Found, decl: &Decl) {
    match decl {
        Decl::Device { name, text } => {
            put_word(found, name);
            found.text(" device ");
            put_word(found, text);
            found.text("; ")
        }
        Decl::Pins {
            names,
            numbers,
            attributes,
        } => put_declared(
            found,
            "pin ",
            names.as_slice(),
            numbers.as_slice(),
            attributes.as_slice(),
        ),
        Decl::Nodes {
            names,
            numbers,
            attributes,
        } => put_declared(
            found,
            "node ",
            names.as_slice(),
            numbers.as_slice(),
            attributes.as_slice(),
        ),
        Decl::Attributes { names, attributes } => {
            put_declared(
                found,
                "istype ",
                names.as_slice(),
                &[],
                attributes.as_slice(),
            )
        }
        Decl::Constants { names, values } => {
            put_words(found, names.as_slice());
            found.text("= ");
            for value in values.as_slice() {
                put_expr(found, value);
                found.text(" ");
            }
            found.text("; ")
        }
        Decl::Options(words) => {
            found.text("option ");
            put_words(found, words.as_slice());
            found.text("; ")
        }
        Decl::DontCare(dc) => put_dont_care(found, dc.on),
    }
}
