// Runs, and what they have to answer.
ghost use Rattle.std.specs.Prelude.{◌<◌};

use chart_cli::{Status, run};
use chart_dev::{MemShelf, MemSink};
use std::alloc::{AllocError, AllocFailed, Global};

/// A shelf with this file alone, which takes so many bytes a call.
pub fn holding(
    alloc: Global,
    bytes_a_call: usize,
    name: &str,
    bytes: &[u8],
) -> Result<MemShelf, AllocError>
    requires { 0 < bytes_a_call }
{
    let mut shelf = MemShelf::new(alloc, bytes_a_call);
    shelf.put_file(name, bytes)?;
    Ok(shelf)
}

/// How the words of this line end over these devices.
pub fn outcome(
    alloc: Global,
    shelf: &mut MemShelf,
    out: &mut MemSink,
    line: &str,
) -> Result<Status, AllocError> {
    let mut words = Vec::new(alloc);
    for word in line.split_whitespace() {
        words.push(String::from_str(alloc, word)?)?;
    }
    Ok(run(alloc, &words, shelf, out))
}

// The status and the bytes put out, for the words of this line over this shelf.
fn answer(
    alloc: Global,
    shelf: &mut MemShelf,
    line: &str,
) -> Result<(Status, Vec<u8>), AllocError> {
    let mut out = MemSink::new(alloc, 1000);
    let status = outcome(alloc, shelf, &mut out, line)?;
    Ok((status, Vec::from_slice(alloc, out.bytes())?))
}

// The number by which the program ends with a status.
fn number_of(status: Status) -> &'static str {
    match status {
        Status::Done => "0",
        Status::Refused => "1",
        Status::Usage => "2",
        Status::Device => "3",
        Status::NoMemory => "4",
    }
}

/// Why a row isn't kept.
#[derive(Debug, Drop)]
pub enum Wrong {
    /// What came in place of what was wanted, or what is malformed.
    Answer(String),
    NoMemory,
}

impl From<AllocError> for Wrong {
    fn from(_refused: AllocError) -> Wrong {
        Wrong::NoMemory
    }
}

impl<T: Drop> From<AllocFailed<T>> for Wrong {
    fn from(_refused: AllocFailed<T>) -> Wrong {
        Wrong::NoMemory
    }
}

// What a run came to: its number, and behind a bar each line that it put out. A bar ends it.
fn told(alloc: Global, status: Status, text: &[u8]) -> Result<String, AllocError> {
    let mut all = format!(in alloc; "{}|", number_of(status))?;
    let text = std::str::from_utf8(text).unwrap_or("bytes that are no text");
    for (i, line) in text.split('\n').enumerate() {
        if i > 0 {
            all.push_str("|")?;
        }
        all.push_str(line)?;
    }
    Ok(all)
}

// Whether a run came to what is wanted, or where that ends in two points, begins so.
fn is_wanted(came: &str, wanted: &str) -> bool {
    match wanted.strip_suffix("..") {
        Some(front) => came.starts_with(front),
        None => came.strip_suffix('|') == Some(wanted),
    }
}

/// The words of a line end with this number, and with each of these lines behind a bar. Two points at the end stand for
/// any rest.
pub fn expect(alloc: Global, shelf: &mut MemShelf, words: &str, wanted: &str) -> Result<(), Wrong> {
    let (status, text) = answer(alloc, shelf, words)?;
    let came = told(alloc, status, &text)?;
    if is_wanted(came.as_str(), wanted) {
        return Ok(());
    }
    Err(Wrong::Answer(came))
}
