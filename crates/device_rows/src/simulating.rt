//! Vectors are run on small devices.

ghost use Rattle.std.specs.Prelude.{◌≡◌, ◌<◌, ◌^◌, length};

use crate::asked::{Ask, ask_rows};
use crate::bench::bench_device;
use crate::loading::put_fault;
use crate::sample::sample_device;
use crate::texts::{fields_of, fuses_of};
use crate::turned::turned_device;
use device_sim::{Mismatch, simulate};
use jedec_reader::FuseFile;
use pld_base::{ListOf, Vector};
use pld_device::{Device, Loaded};
use std::alloc::{AllocError, Global};
use test_rows::{Found, Report, Section};

/// A vector with these characters from pin 1 on, and `N` past them.
fn vector_of(line: &[u8]) -> Vector {
    let mut chars = [b'N'; 24];
    for (place, char) in chars.iter_mut().zip(line.iter()) {
        *place = *char;
    }
    Vector { chars }
}

/// How often a vector is there, and its characters.
fn repeated(word: &str) -> (u16, &str) {
    match word.split_once('*') {
        Some((count, chars)) => (count.parse::<u16>().unwrap_or(0), chars),
        None => (1, word),
    }
}

/// The vectors of a text, with blanks between them.
pub fn vectors_of(alloc: Global, text: &str) -> Result<Vec<Vector>, AllocError> {
    let mut vectors = Vec::new(alloc);
    if text != "-" {
        for word in text.split_whitespace() {
            let (count, chars) = repeated(word);
            for _number in 0..count {
                vectors.push(vector_of(chars.as_bytes()))?;
            }
        }
    }
    Ok(vectors)
}

/// Appends a mismatch: vector, pin, the character, and what is found.
fn put_mismatch(it: &Mismatch, found: &mut Found) {
    found.number(it.vector as usize);
    found.text(" ");
    found.number(usize::from(it.pin));
    found.put(&[b' ', it.expects, b' ', it.finds, b';']);
}

/// Appends what results from the vectors of a file.
fn put_outcome<D: Device>(alloc: Global, device: &Loaded<D>, file: &FuseFile, found: &mut Found)
    requires size { length file.now.fuses ≡ D.table.fuses }
    requires few { length file.now.vectors < 2 ^ 32 }
{
    match simulate::<D>(alloc, device, file) {
        Ok(report) => {
            found.number(report.vectors as usize);
            found.text(" vectors;");
            for it in report.list.as_slice() {
                put_mismatch(it, found);
            }
        }
        Err(fault) => put_fault(&fault, found),
    }
}

/// A device with these fuses.
#[derive(Drop)]
struct Simulated<'a, 'b, D: Device> {
    device: &'a Loaded<D>,
    fuses: &'b str,
}

impl<'a, 'b, D: Device> Ask for Simulated<'a, 'b, D> {
    fn answer(&mut self, alloc: Global, input: &str, found: &mut Found) {
        let [_what, default_level, vectors, ..] = fields_of(input);
        let size = usize::from(self.device.fuses());
        let Some(fuses) = fuses_of(alloc, self.fuses, size) else {
            return found.text("not as many fuses");
        };
        let Ok(vectors) = vectors_of(alloc, vectors) else {
            return found.text("no memory");
        };
        if vectors.len() > 10_000 {
            return found.text("too many vectors");
        }
        let file = FuseFile {
            fuses,
            listed: self.device.fuses(),
            vectors: ListOf::from_vec(vectors),
            default_level: default_level == "1",
        };
        put_outcome::<D>(alloc, self.device, &file, found)
    }
}

/// Asks the rows of each block, after what its cells take and its fuses.
fn ask_blocks<D: Device>(
    alloc: Global,
    device: &Loaded<D>,
    section: &Section<'_>,
    report: &mut Report<'_>,
) {
    let Ok(blocks) = section.blocks(alloc) else {
        return report.unread(0);
    };
    for block in &blocks {
        if let [_what, fuses, rows @ ..] = block.as_slice() {
            let mut simulated = Simulated::<D> {
                device,
                fuses: fuses.text,
            };
            ask_rows(alloc, rows, &mut simulated, report);
        }
    }
}

/// Runs the vectors of a section on the device that its name says.
pub fn ask_vectors(alloc: Global, section: &Section<'_>, report: &mut Report<'_>) -> bool {
    if section.name == "vectors on a register and two gates" {
        ask_blocks(alloc, &bench_device(), section, report);
    } else if section.name == "vectors on the sample device" {
        ask_blocks(alloc, &sample_device(), section, report);
    } else if section.name == "vectors on a device that complements before its registers" {
        ask_blocks(alloc, &turned_device(), section, report);
    } else {
        return false;
    }
    true
}
