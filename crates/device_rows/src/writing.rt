//! Fuse files of the sample device are written.

ghost use Rattle.std.specs.Prelude.{◌≡◌, ◌==◌, ◌||◌, not, length, drop};
ghost use Rattle.std.specs.List.{list_all, list_any};
ghost use Rattle.jedec_file.specs.ControlLines.{lines_end};
ghost use Rattle.jedec_file.specs.Fields.{is_test_char};
ghost use Rattle.jedec_file.specs.FileText.{ETX, asterisk};
ghost use Rattle.jedec_file.specs.TestVectors.{chars_of};
ghost use Rattle.pld_device.specs.SampleTable.{sample};

use crate::sample::sample_device;
use crate::simulating::vectors_of;
use crate::texts::{fuses_of, joined};
use jedec_writer::{fuse_sum, write};
use pld_base::Vector;
use pld_device::Fuses;
use std::alloc::Global;
use test_rows::{Found, Report, Row, Section, unescaped};

/// Whether a byte ends neither its field nor the text.
fn is_plain_byte(byte: u8) -> bool
    ensures { result ≡ not (byte == asterisk || byte == ETX) }
{
    byte != b'*' && byte != 3
}

/// Whether a name has only such bytes.
fn is_plain(name: &[u8]) -> bool
    ensures { result ≡ list_all (λ b. not (b == asterisk || b == ETX)) name.now }
{
    name.iter().all(|byte| is_plain_byte(*byte))
}

/// Whether some fuse is 1.
fn has_opened(fuses: &[bool]) -> bool
    ensures { result ≡ list_any (λ fuse. fuse) fuses.now }
{
    fuses.iter().any(|fuse| *fuse)
}

/// Whether some fuse that no line may name is 1.
fn has_opened_past_lines(fuses: &Fuses) -> bool
    requires { length fuses.now ≡ 60 }
    ensures { result ≡ list_any (λ fuse. fuse) (drop (lines_end sample) fuses.now) }
{
    let (_named, others) = fuses.levels().split_at(58);
    has_opened(others)
}

/// Whether a fuse file may have this character in a vector.
fn is_test_char(char: u8) -> bool
    ensures { result ≡ is_test_char char }
{
    b"01CKHLZXNF23456789BPUD".iter().any(|other| *other == char)
}

/// Whether a fuse file may have these characters in a vector.
fn are_test_chars(chars: &[u8]) -> bool
    ensures { result ≡ list_all is_test_char chars.now }
{
    chars.iter().all(|char| is_test_char(*char))
}

/// Whether a fuse file may have what a vector has at the pins.
fn is_test_vector(vector: &Vector) -> bool
    ensures { result ≡ list_all is_test_char (chars_of sample vector.now) }
{
    let (chars, _behind) = vector.chars.split_at(10);
    are_test_chars(chars)
}

/// Whether each vector is such a one.
fn are_test_vectors(vectors: &[Vector]) -> bool
    ensures { result ≡ list_all (λ v. list_all is_test_char (chars_of sample v)) vectors.now }
{
    vectors.iter().all(|vector| is_test_vector(vector))
}

/// Appends the file of a name, fuses and vectors.
#[tactic(auto, using(crate::proofs::TestVectors::all_test))]
fn put_file(alloc: Global, name: &[u8], fuses: &Fuses, vectors: &[Vector], found: &mut Found)
    requires { length fuses.now ≡ 60 }
{
    if vectors.len() <= 9999
        && is_plain(name)
        && !has_opened_past_lines(fuses)
        && are_test_vectors(vectors)
    {
        match write(alloc, &sample_device(), name, fuses, vectors) {
            Ok(file) => found.put(&file),
            Err(_) => found.text("no memory"),
        }
    } else {
        found.text("no file");
    }
}

/// Appends the fuse sum, and how many fuses are opened.
fn put_sum(alloc: Global, fuses: &Fuses, found: &mut Found) {
    let sum = fuse_sum(fuses);
    let opened = fuses.opened();
    match format!(in alloc; "{sum:04X} {opened}") {
        Ok(text) => found.text(text.as_str()),
        Err(_) => found.text("no memory"),
    }
}

/// Appends the bytes of a block's lines, in which escapes represent what they give.
fn bytes_of(alloc: Global, lines: &[Row<'_>]) -> Option<Vec<u8>> {
    match joined(alloc, lines) {
        Ok(text) => unescaped(alloc, text.as_str()),
        Err(_) => None,
    }
}

/// Writes the file of a block, and reports it and the fuse sum.
fn ask_file(alloc: Global, block: &[Row<'_>], report: &mut Report<'_>) {
    let [name, fuses, vectors, sum, lines @ ..] = block else {
        return report.unread(0);
    };
    let (Some(fuses), Ok(vectors), Some(wanted)) = (
        fuses_of(alloc, fuses.text, 60),
        vectors_of(alloc, vectors.text),
        bytes_of(alloc, lines),
    ) else {
        return report.unread(name.number);
    };
    let mut found = Found::new(alloc);
    put_sum(alloc, &fuses, &mut found);
    report.row(sum.number, sum.text.as_bytes(), &found);
    let mut found = Found::new(alloc);
    put_file(alloc, name.text.as_bytes(), &fuses, &vectors, &mut found);
    report.row(name.number, &wanted, &found);
}

/// Writes the files of a section.
pub fn ask_writing(alloc: Global, section: &Section<'_>, report: &mut Report<'_>) -> bool {
    if section.name != "files that are written" {
        return false;
    }
    match section.blocks(alloc) {
        Ok(blocks) => {
            for block in &blocks {
                ask_file(alloc, block.as_slice(), report);
            }
        }
        Err(_) => report.unread(0),
    }
    true
}
