// Lines that make files.
use crate::bench::{Bench, wrong};
use crate::bytes::{bytes_of, number, parted};
use std::alloc::{AllocError, Global};
use testing_cells::{DIVIDED, FOREIGN, HOLED, SQUARE, file_of};
use testing_runs::Wrong;

/// `shelf N`
pub fn shelf(bench: &mut Bench, rest: &str) -> Result<(), Wrong> {
    let bytes_a_call = number(bench.alloc, rest)?;
    bench.clear(bytes_a_call);
    Ok(())
}

/// `text NAME TEXT`
pub fn text(bench: &mut Bench, rest: &str) -> Result<(), Wrong> {
    let (name, text) = parted(rest);
    bench.name_text(name, text)?;
    Ok(())
}

/// `file NAME TEXT`
pub fn file(bench: &mut Bench, rest: &str) -> Result<(), Wrong> {
    let (name, text) = parted(rest);
    let bytes = bytes_of(bench.alloc, text)?;
    bench.put(name, bytes)?;
    Ok(())
}

/// `add NAME TEXT`
pub fn add(bench: &mut Bench, rest: &str) -> Result<(), Wrong> {
    let (name, text) = parted(rest);
    extend(bench, name, 1, text)
}

/// `times NAME N TEXT`
pub fn times(bench: &mut Bench, rest: &str) -> Result<(), Wrong> {
    let (name, rest) = parted(rest);
    let (count, text) = parted(rest);
    let count = number(bench.alloc, count)?;
    extend(bench, name, count, text)
}

// Puts a text so many times at a file's end.
fn extend(bench: &mut Bench, name: &str, count: usize, text: &str) -> Result<(), Wrong> {
    let piece = bytes_of(bench.alloc, text)?;
    let mut bytes = bench.bytes_made(name)?;
    repeat(&piece, count, &mut bytes)?;
    bench.put(name, bytes)?;
    Ok(())
}

fn repeat(piece: &[u8], count: usize, bytes: &mut Vec<u8>) -> Result<(), AllocError> {
    for _ in 0..count {
        bytes.extend_from_slice(piece)?;
    }
    Ok(())
}

// The data records of a cell of this name.
fn records_of(kind: &str) -> Option<&'static [u8]> {
    match kind {
        "square" => Some(&SQUARE),
        "divided" => Some(&DIVIDED),
        "foreign" => Some(&FOREIGN),
        "holed" => Some(&HOLED),
        _ => None,
    }
}

fn cell_of(alloc: Global, kind: &str) -> Result<Vec<u8>, Wrong> {
    let Some(records) = records_of(kind) else {
        return Err(wrong(alloc, "no cell of this kind"));
    };
    let cell = file_of(alloc, records)?;
    Ok(cell)
}

/// `cell NAME KIND`
pub fn cell(bench: &mut Bench, rest: &str) -> Result<(), Wrong> {
    let (name, kind) = parted(rest);
    let bytes = cell_of(bench.alloc, kind)?;
    bench.put(name, bytes)?;
    Ok(())
}

// Two numbers with a blank between them.
fn span(alloc: Global, text: &str) -> Result<(usize, usize), Wrong> {
    let (from, to) = parted(text);
    let from = number(alloc, from)?;
    let to = number(alloc, to)?;
    Ok((from, to))
}

// The bytes of a file on the shelf from a place on, up to another.
fn part<'a>(bench: &'a Bench, name: &str, from: usize, to: usize) -> Result<&'a [u8], Wrong> {
    match bench.shelf.bytes_of(name) {
        Some(bytes) if from <= to && to <= bytes.len() => Ok(&bytes[from..to]),
        _ => Err(wrong(bench.alloc, "no such bytes to copy")),
    }
}

/// `copy NAME OTHER FROM TO`
pub fn copy(bench: &mut Bench, rest: &str) -> Result<(), Wrong> {
    let (name, rest) = parted(rest);
    let (other, places) = parted(rest);
    let (from, to) = span(bench.alloc, places)?;
    let mut bytes = bench.bytes_made(name)?;
    bytes.extend_from_slice(part(bench, other, from, to)?)?;
    bench.put(name, bytes)?;
    Ok(())
}

/// `cut NAME N`
pub fn cut(bench: &mut Bench, rest: &str) -> Result<(), Wrong> {
    let (name, length) = parted(rest);
    let length = number(bench.alloc, length)?;
    let mut bytes = bench.bytes_made(name)?;
    bytes.truncate(length);
    bench.put(name, bytes)?;
    Ok(())
}

// Puts these bytes over those from a place on. Those that would stand behind the end are left out.
fn put_over(bytes: &mut [u8], place: usize, these: &[u8]) {
    let mut at = place;
    for byte in these {
        if at < bytes.len() {
            bytes[at] = *byte;
            at += 1;
        }
    }
}

/// `set NAME AT TEXT`
pub fn set(bench: &mut Bench, rest: &str) -> Result<(), Wrong> {
    let (name, rest) = parted(rest);
    let (place, text) = parted(rest);
    let place = number(bench.alloc, place)?;
    let these = bytes_of(bench.alloc, text)?;
    let mut bytes = bench.bytes_made(name)?;
    put_over(&mut bytes, place, &these);
    bench.put(name, bytes)?;
    Ok(())
}
