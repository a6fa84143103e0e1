// What a line of a file of rows asks for.
use crate::bench::{Bench, wrong};
use crate::bytes::parted;
use crate::{checks, makers};
use testing_runs::Wrong;

/// What was asked for: nothing but making, or a row, which is kept.
#[derive(Clone, Copy)]
pub enum Kind {
    Made,
    Row,
}

// A line that makes something, where it is one.
fn made(bench: &mut Bench, verb: &str, rest: &str) -> Option<Result<(), Wrong>> {
    match verb {
        "text" => Some(makers::text(bench, rest)),
        "shelf" => Some(makers::shelf(bench, rest)),
        "file" => Some(makers::file(bench, rest)),
        "add" => Some(makers::add(bench, rest)),
        "times" => Some(makers::times(bench, rest)),
        "cell" => Some(makers::cell(bench, rest)),
        "copy" => Some(makers::copy(bench, rest)),
        "cut" => Some(makers::cut(bench, rest)),
        "set" => Some(makers::set(bench, rest)),
        _ => None,
    }
}

fn kept(bench: &mut Bench, verb: &str, rest: &str) -> Result<(), Wrong> {
    match verb {
        "chart" => checks::chart(bench, rest),
        "absent" => checks::absent(bench, rest),
        "same" => checks::same(bench, rest),
        "equal" => checks::equal(bench, rest),
        "length" => checks::length(bench, rest),
        "bytes" => checks::bytes(bench, rest),
        "list" => checks::list(bench, rest),
        _ => Err(wrong(bench.alloc, "the line begins with no known word")),
    }
}

/// Does what a line asks for.
pub fn obey(bench: &mut Bench, line: &str) -> Result<Kind, Wrong> {
    if line.is_empty() || line.starts_with('#') {
        return Ok(Kind::Made);
    }
    let line = bench.expanded(line)?;
    let (verb, rest) = parted(line.as_str());
    match made(bench, verb, rest) {
        Some(Ok(())) => Ok(Kind::Made),
        Some(Err(why)) => Err(why),
        None => match kept(bench, verb, rest) {
            Ok(()) => Ok(Kind::Row),
            Err(why) => Err(why),
        },
    }
}
