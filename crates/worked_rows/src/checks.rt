// Rows: what a command answers, and what a file holds.
use crate::bench::{Bench, wrong};
use crate::bytes::{bytes_of, number, parted};
use crate::lists::list_of;
use std::alloc::Global;
use testing_runs::{Wrong, expect};

// What stands before and behind the arrow of a row.
fn sides<'a>(alloc: Global, rest: &'a str) -> Result<(&'a str, &'a str), Wrong> {
    match rest.split_once("->") {
        Some((asked, wanted)) => Ok((asked.trim_end(), wanted.trim_start())),
        None => Err(wrong(alloc, "a row has no arrow")),
    }
}

/// `chart WORDS -> STATUS|LINE|LINE`
pub fn chart(bench: &mut Bench, rest: &str) -> Result<(), Wrong> {
    let (words, wanted) = sides(bench.alloc, rest)?;
    expect(bench.alloc, &mut bench.shelf, words, wanted)
}

/// `absent NAME`
pub fn absent(bench: &Bench, name: &str) -> Result<(), Wrong> {
    match bench.shelf.bytes_of(name) {
        None => Ok(()),
        Some(_) => Err(wrong(bench.alloc, "the file is there")),
    }
}

// The bytes of a file on the shelf.
fn bytes_at<'a>(bench: &'a Bench, name: &str) -> Result<&'a [u8], Wrong> {
    match bench.shelf.bytes_of(name) {
        Some(bytes) => Ok(bytes),
        None => Err(wrong(bench.alloc, "the file isn't there")),
    }
}

/// `same NAME`
pub fn same(bench: &Bench, name: &str) -> Result<(), Wrong> {
    let bytes = bytes_at(bench, name)?;
    let made = bench.bytes_made(name)?;
    if bytes == made.as_slice() {
        return Ok(());
    }
    Err(wrong(bench.alloc, "the file isn't as it was made"))
}

/// `equal NAME OTHER`
pub fn equal(bench: &Bench, rest: &str) -> Result<(), Wrong> {
    let (name, other) = parted(rest);
    if bytes_at(bench, name)? == bytes_at(bench, other)? {
        return Ok(());
    }
    Err(wrong(bench.alloc, "the files differ"))
}

/// `length NAME N`
pub fn length(bench: &Bench, rest: &str) -> Result<(), Wrong> {
    let (name, wanted) = parted(rest);
    let wanted = number(bench.alloc, wanted)?;
    let length = bytes_at(bench, name)?.len();
    if length == wanted {
        return Ok(());
    }
    let why = format!(in bench.alloc; "{name} has {length} bytes")?;
    Err(Wrong::Answer(why))
}

/// `bytes NAME AT TEXT`
pub fn bytes(bench: &Bench, rest: &str) -> Result<(), Wrong> {
    let (name, rest) = parted(rest);
    let (place, text) = parted(rest);
    let place = number(bench.alloc, place)?;
    let wanted = bytes_of(bench.alloc, text)?;
    let bytes = bytes_at(bench, name)?;
    if place <= bytes.len() && bytes[place..].starts_with(&wanted) {
        return Ok(());
    }
    Err(wrong(bench.alloc, "other bytes stand there"))
}

/// `list NAME WHAT -> LINE|LINE`
pub fn list(bench: &Bench, rest: &str) -> Result<(), Wrong> {
    let (asked, wanted) = sides(bench.alloc, rest)?;
    let (name, what) = parted(asked);
    let cell = bytes_at(bench, name)?;
    let list = list_of(bench.alloc, cell, what)?;
    if list.as_str() == wanted {
        return Ok(());
    }
    Err(Wrong::Answer(list))
}
