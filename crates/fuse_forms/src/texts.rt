//! The text of a fuse file, line by line. What it says is known once it is read back.

use jedec_file::{byte_sum, fuse_sum};
use jedec_reader::FuseFile;
use pld_base::{OutOfMemory, Vector, put_decimal, put_four_digits, put_hex};
use pld_device::{Device, Loaded};
use std::alloc::Global;

/// The last byte of the text before its sum.
const ETX: u8 = 3;

/// Ends a field and its line.
fn put_end(out: &mut Vec<u8>) -> Result<(), OutOfMemory> {
    out.extend_from_slice(b"*\r\n")?;
    Ok(())
}

/// The line of a number after its letters.
fn put_counted(
    alloc: Global,
    out: &mut Vec<u8>,
    letters: &[u8],
    number: usize,
) -> Result<(), OutOfMemory> {
    out.extend_from_slice(letters)?;
    put_decimal(alloc, out, number)?;
    put_end(out)
}

/// The line of the fuses from number `first` on, if some fuse is opened.
fn put_levels(out: &mut Vec<u8>, first: u16, levels: &[bool]) -> Result<(), OutOfMemory> {
    if !levels.iter().any(|level| *level) {
        return Ok(());
    }
    out.push(b'L')?;
    put_four_digits(out, first)?;
    out.push(b' ')?;
    for level in levels {
        out.push(if *level { b'1' } else { b'0' })?;
    }
    put_end(out)
}

/// The lines of the array's rows, then one of the control fuses and one of those that a short file leaves out.
fn put_fuses<D: Device>(
    device: &Loaded<D>,
    out: &mut Vec<u8>,
    levels: &[bool],
) -> Result<(), OutOfMemory> {
    let mut rest = levels;
    let mut first = 0u16;
    for _ in 0..device.rows() {
        let (row, behind) = rest.split_at(usize::from(device.columns()).min(rest.len()));
        put_levels(out, first, row)?;
        first = first.wrapping_add(device.columns());
        rest = behind;
    }
    let control = usize::from(device.short().wrapping_sub(first)).min(rest.len());
    let (control, signature) = rest.split_at(control);
    put_levels(out, first, control)?;
    put_levels(out, device.short(), signature)
}

/// The lines before those of the fuses.
fn put_head<D: Device>(
    alloc: Global,
    device: &Loaded<D>,
    out: &mut Vec<u8>,
    file: &FuseFile,
    secured: bool,
) -> Result<(), OutOfMemory> {
    let vectors = file.vectors.as_slice().len();
    out.extend_from_slice(b"\x02abel-fuses ")?;
    out.extend_from_slice(device.name().text().as_bytes())?;
    put_end(out)?;
    put_counted(alloc, out, b"QP", usize::from(device.pins()))?;
    put_counted(alloc, out, b"QF", usize::from(file.listed))?;
    if vectors != 0 {
        put_counted(alloc, out, b"QV", vectors)?;
    }
    out.extend_from_slice(b"F0*\r\n")?;
    out.extend_from_slice(if secured { b"G1*\r\n" } else { b"G0*\r\n" })?;
    if vectors != 0 || file.default_level {
        out.extend_from_slice(if file.default_level {
            b"X1*\r\n"
        } else {
            b"X0*\r\n"
        })?;
    }
    Ok(())
}

/// The lines of the vectors, with numbers from 1.
fn put_vectors<D: Device>(
    alloc: Global,
    device: &Loaded<D>,
    out: &mut Vec<u8>,
    vectors: &[Vector],
) -> Result<(), OutOfMemory> {
    let mut number = 1u16;
    for vector in vectors {
        out.push(b'V')?;
        if number < 10000 {
            put_four_digits(out, number)?;
        } else {
            put_decimal(alloc, out, usize::from(number))?;
        }
        out.push(b' ')?;
        let (pins, _) = vector.chars.split_at(usize::from(device.pins()).min(24));
        out.extend_from_slice(pins)?;
        put_end(out)?;
        number = number.wrapping_add(1);
    }
    Ok(())
}

/// The text of a fuse file, with its sums.
pub fn text_of<D: Device>(
    alloc: Global,
    device: &Loaded<D>,
    file: &FuseFile,
    secured: bool,
) -> Result<Vec<u8>, OutOfMemory> {
    let levels = file.fuses.levels();
    let (listed, _) = levels.split_at(usize::from(file.listed).min(levels.len()));
    let mut out = Vec::new(alloc);
    put_head::<D>(alloc, device, &mut out, file, secured)?;
    put_fuses::<D>(device, &mut out, listed)?;
    out.push(b'C')?;
    put_hex(&mut out, fuse_sum(listed))?;
    put_end(&mut out)?;
    put_vectors::<D>(alloc, device, &mut out, file.vectors.as_slice())?;
    out.push(ETX)?;
    let sum = byte_sum(&out);
    put_hex(&mut out, sum)?;
    Ok(out)
}
