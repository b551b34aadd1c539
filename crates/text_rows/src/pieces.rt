//! Texts in pieces, with what is left of them after a skip or ahead of a look.

use std::alloc::{AllocError, Global};
use test_rows::{Found, Report};
use text_pieces::{Piece, Rest};

// Pieces that are put before a text, how many bytes are left out, and what is left.
const LEFT: [(&[&[u8]], &[u8], usize, &[u8]); 6] = [
    (&[], b"abc", 0, b"abc"),
    (&[b"ab", b"", b"c"], b"de", 0, b"abcde"),
    (&[b"ab", b"c"], b"de", 1, b"bcde"),
    (&[b"ab", b"c"], b"de", 4, b"e"),
    (&[b"ab", b"c"], b"de", 5, b""),
    (&[b"", b""], b"", 0, b""),
];

/// Puts short texts before a short rest, each as a piece of its own.
fn put_before<'a>(rest: &mut Rest<'a>, texts: &[&'a [u8]]) -> Result<(), AllocError> {
    for index in 0..texts.len() {
        let text = texts[texts.len() - 1 - index];
        if rest.len() < 100 && text.len() < 100 {
            rest.put_all(&[Piece::computed(text)])?;
        }
    }
    Ok(())
}

/// A text after its length.
fn counted(alloc: Global, text: &[u8]) -> Found {
    let mut found = Found::new(alloc);
    found.number(text.len());
    found.text(" ");
    found.put(text);
    found
}

/// Takes all bytes of a rest, after their number.
fn taken(alloc: Global, rest: &mut Rest) -> Found {
    let mut found = Found::new(alloc);
    found.number(rest.len());
    found.text(" ");
    for _ in 0..10 {
        if let Some(byte) = rest.take_byte() {
            found.put(&[byte]);
        }
    }
    found
}

/// Runs the pieces that are put before a rest.
fn run_rests(alloc: Global, report: &mut Report) -> Result<(), AllocError> {
    let mut number = 0usize;
    for (pieces, text, count, left) in LEFT {
        number = number.saturating_add(1);
        let mut rest = Rest::new(alloc, text);
        put_before(&mut rest, pieces)?;
        if count <= rest.len() {
            rest.skip(count);
        }
        let found = taken(alloc, &mut rest);
        report.row(number, counted(alloc, left).bytes(), &found);
    }
    Ok(())
}

/// Puts a byte, if there is one.
fn put_byte(found: &mut Found, byte: Option<u8>) {
    if let Some(byte) = byte {
        found.put(&[byte]);
    }
    found.text(" ")
}

/// A look that passes the ends of pieces: its first byte, the two after it, how many are left, and how many bytes of pieces
/// there are up to the third.
fn looked(alloc: Global) -> Result<Found, AllocError> {
    let mut rest = Rest::new(alloc, b"de");
    put_before(&mut rest, &[b"ab", b"", b"c"])?;
    let mut at = rest.ahead();
    let mut found = Found::new(alloc);
    put_byte(&mut found, at.step());
    put_byte(&mut found, at.peek());
    put_byte(&mut found, at.peek_second());
    found.number(at.left());
    if at.left() >= 3 {
        let mut count = 0usize;
        for piece in at.until(alloc, 3)?.iter() {
            count = count.saturating_add(piece.len());
        }
        found.text(" ");
        found.number(count);
    }
    Ok(found)
}

/// Puts a length, if it is known.
fn put_length(found: &mut Found, length: Option<usize>) {
    if let Some(length) = length {
        found.number(length);
    }
    found.text(" ")
}

/// A look after the first byte of a kept text: how long the block is that begins there, and the argument, and how many bytes
/// precede a question mark.
fn known(alloc: Global, text: &[u8]) -> Result<Found, AllocError> {
    let mut rest = Rest::new(alloc, text);
    rest.keep(alloc)?;
    let mut at = rest.ahead();
    let _opening = at.step();
    let mut found = Found::new(alloc);
    put_length(&mut found, at.block_len());
    put_length(&mut found, at.argument_len());
    found.number(at.unmarked_len());
    Ok(found)
}

// Kept texts, and what is known after their first byte.
const KNOWN: [(&[u8], &[u8]); 4] = [
    (b"{ab{c}d}e?f", b"6  8"),
    (b"(a(b,c)d,e)?", b" 7 10"),
    (b"{a(')}',b?)}", b"10  8"),
    (b"{a?", b"  1"),
];

/// The report on texts in pieces.
pub fn report(alloc: Global) -> Found {
    let mut report = Report::new(alloc, "Texts in pieces");
    if run_rests(alloc, &mut report).is_err() {
        report.unread(0);
    }
    match looked(alloc) {
        Ok(found) => report.row(7, b"a b c 4 3", &found),
        Err(_) => report.unread(7),
    }
    let mut number = 7usize;
    for (text, expected) in KNOWN {
        number = number.saturating_add(1);
        match known(alloc, text) {
            Ok(found) => report.row(number, expected, &found),
            Err(_) => report.unread(number),
        }
    }
    report.end()
}
