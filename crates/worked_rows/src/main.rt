//! Rows that were worked by hand, kept as data. Each line of a file of rows makes a file on a shelf in memory, or says what
//! a command has to answer over it or what a file has to hold then.
//!
//! The words are the names of the files of rows, which stand for one text. A line that isn't kept is printed with what came
//! instead, and at the end how many rows were kept. `{NAME}` in a line stands for a text that was given this name; in a
//! TEXT `\n`, `\r` and `\xHH` stand for bytes. Lines that are empty or begin with `#` say nothing. The others:
//!
//! | Line | What it does |
//! |---|---|
//! | `text NAME TEXT` | gives a text a name, for the lines and files after it |
//! | `shelf N` | goes on with an empty shelf, which takes N bytes a call |
//! | `file NAME TEXT` | puts a file of this text on the shelf |
//! | `add NAME TEXT` | puts the text at the file's end |
//! | `times NAME N TEXT` | puts the text N times at the file's end |
//! | `cell NAME KIND` | puts a cell of the crate `testing_cells` on the shelf |
//! | `copy NAME OTHER FROM TO` | puts the bytes FROM up to TO of another file at the file's end |
//! | `cut NAME N` | leaves the file's first N bytes |
//! | `set NAME AT TEXT` | puts the text over the file's bytes from AT on |
//!
//! And rows, which are kept or not:
//!
//! | Row | What it says |
//! |---|---|
//! | `chart WORDS -> STATUS\|LINE\|LINE` | the words end with this status and these lines; two points at the end stand for any rest |
//! | `absent NAME` | the shelf has no such file |
//! | `same NAME` | the file is as the lines above made it |
//! | `equal NAME OTHER` | two files have the same bytes |
//! | `length NAME N` | the file has N bytes |
//! | `bytes NAME AT TEXT` | the text stands in the file from AT on |
//! | `list NAME WHAT -> LINE\|LINE` | the cell has these lines of a list, and no others |
//!
//! A list's lines stand in the order of their texts, equal ones once behind `N of`. Positions are longitudes and latitudes in
//! ten-millionths of a degree, and an edge's points stand in the direction whose text comes first.
//!
//! | List | Its lines |
//! |---|---|
//! | `soundings` | `X Y DEPTH`, the depth in decimetres |
//! | `contours` | `VALDCO: X Y, X Y ..` |
//! | `features` | `PRIM GRUP OBJL ATTL=ATVL ..` |
//! | `pointers` | `OBJL USAG MASK: X Y, X Y ..` for each pointer to an edge |
//! | `hidden` | those of them with MASK 1 |
//! | `masks` | the same as `pointers` without the points |
#![tactic(auto)]

mod bench;
mod bytes;
mod checks;
mod lists;
mod makers;
mod rows;
mod spatial;

use bench::Bench;
use rows::{Kind, obey};
use std::rt::{Env, Files};
use std::{env, fs, io};
use testing_runs::Wrong;

// How many rows were kept, and how many lines weren't.
#[derive(Clone, Copy)]
struct Tally {
    kept: u64,
    lost: u64,
}

// Counts what a line came to, and prints why it wasn't kept.
fn count(
    rt: &impl Print,
    tally: &mut Tally,
    place: (&str, usize),
    came: Result<Kind, Wrong>,
) -> io::Result<()> {
    let why = match came {
        Ok(Kind::Made) => return Ok(()),
        Ok(Kind::Row) => {
            tally.kept = tally.kept.saturating_add(1);
            return Ok(());
        }
        Err(why) => why,
    };
    tally.lost = tally.lost.saturating_add(1);
    match why {
        Wrong::Answer(why) => println!(rt; "{} {}: {why}", place.0, place.1),
        Wrong::NoMemory => println!(rt; "{} {}: no memory", place.0, place.1),
    }
}

// Takes each line of a file of rows.
fn take_rows(
    rt: &(impl Files + Print + AllocGlobal),
    bench: &mut Bench,
    tally: &mut Tally,
    name: &str,
) -> io::Result<()> {
    let rows = fs::read_to_string(rt, name)?;
    let mut number = 0usize;
    for line in rows.lines() {
        number = number.saturating_add(1);
        count(rt, tally, (name, number), obey(bench, line))?;
    }
    Ok(())
}

fn main(rt: HostRuntime) -> io::Result<()> {
    let mut bench = Bench::new(rt.alloc());
    let mut tally = Tally { kept: 0, lost: 0 };
    for (i, name) in env::args(&rt)?.enumerate() {
        if i > 0 {
            take_rows(&rt, &mut bench, &mut tally, name.as_str())?;
        }
    }
    println!(rt; "{} rows kept, {} not", tally.kept, tally.lost)
}
