//! Texts with their tokens, or with the refusal of their scan.

use crate::faults::{put_place, put_scan_fault};
use abel_lexer::{Token, TokenKind, scan};
use std::alloc::Global;
use test_rows::{Found, Report, Row, halves, unescaped};

/// The most bytes that a text may have.
pub const LONGEST: usize = 1_048_576;

/// The tokens of a text; if it has none, what is found says why.
pub fn tokens_of(alloc: Global, text: &[u8], found: &mut Found) -> Option<Vec<Token>> {
    if text.len() > LONGEST {
        found.text("too long");
        return None;
    }
    match scan(alloc, text) {
        Ok(tokens) => Some(tokens),
        Err(fault) => {
            put_scan_fault(found, fault);
            None
        }
    }
}

/// The word of a kind of token.
fn kind_word(kind: TokenKind) -> &'static str {
    match kind {
        TokenKind::Identifier => "identifier",
        TokenKind::Keyword => "keyword",
        TokenKind::Number => "number",
        TokenKind::Text => "text",
        TokenKind::Special => "special",
        TokenKind::Extension => "extension",
        TokenKind::Sign => "sign",
        TokenKind::Directive => "directive",
    }
}

/// Puts a token as its kind, its text and its value.
fn put_token(found: &mut Found, token: &Token) {
    found.text(kind_word(token.kind));
    found.text(" ");
    found.put(token.text.bytes());
    found.text(" ");
    found.number(token.value as usize)
}

/// The tokens of a text, each with its kind, its text and its value.
pub fn tokens(alloc: Global, text: &[u8]) -> Found {
    let mut found = Found::new(alloc);
    let mut front = "";
    if let Some(tokens) = tokens_of(alloc, text, &mut found) {
        for token in tokens.as_slice() {
            found.text(front);
            put_token(&mut found, token);
            front = "; ";
        }
    }
    found
}

/// How many tokens a text has and the value of the last of them, or the refusal.
pub fn scan_result(alloc: Global, text: &[u8]) -> Found {
    let mut found = Found::new(alloc);
    if let Some(tokens) = tokens_of(alloc, text, &mut found) {
        found.number(tokens.len());
        if let Some(last) = tokens.last() {
            found.text(" ");
            found.number(last.value as usize);
        }
    }
    found
}

/// The same of two bytes, over and over up to the longest text.
pub fn longest_scan(alloc: Global, pair: &[u8]) -> Found {
    let mut text = Found::new(alloc);
    for _ in 0..LONGEST / 2 {
        text.put(pair);
    }
    scan_result(alloc, text.bytes())
}

/// The line and column of a token, and then the token.
fn token_at(alloc: Global, token: &Token) -> Found {
    let mut found = Found::new(alloc);
    put_place(&mut found, token.place);
    found.text(" ");
    put_token(&mut found, token);
    found
}

/// Runs a text whose tokens are below it, a row each.
fn run_tokens(alloc: Global, text: &[u8], rows: &[Row], report: &mut Report) {
    let mut found = Found::new(alloc);
    let Some(tokens) = tokens_of(alloc, text, &mut found) else {
        return;
    };
    for (token, row) in tokens.iter().zip(rows.iter()) {
        match unescaped(alloc, row.text) {
            Some(expected) => {
                report.row(row.number, expected.as_slice(), &token_at(alloc, token))
            }
            None => report.unread(row.number),
        }
    }
}

/// Runs a block: a row `TEXT => COUNT VALUE`, and its tokens, a row each.
pub fn run_block(alloc: Global, block: &[Row], report: &mut Report) {
    let [first, rows @ ..] = block else {
        return;
    };
    let Some((text, expected)) = halves(first.text) else {
        return report.unread(first.number);
    };
    match unescaped(alloc, text) {
        Some(text) => {
            let found = scan_result(alloc, text.as_slice());
            report.row(first.number, expected.as_bytes(), &found);
            run_tokens(alloc, text.as_slice(), rows, report)
        }
        None => report.unread(first.number),
    }
}
