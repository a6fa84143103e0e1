// Words, numbers and texts of a line.
use crate::bench::wrong;
use std::alloc::Global;
use testing_runs::Wrong;

/// A line's first word, and what follows the blank behind it.
pub fn parted(line: &str) -> (&str, &str) {
    match line.split_once(' ') {
        Some((word, rest)) => (word, rest),
        None => (line, ""),
    }
}

/// A whole number.
pub fn number(alloc: Global, text: &str) -> Result<usize, Wrong> {
    match text.parse::<usize>() {
        Ok(number) => Ok(number),
        Err(_) => Err(wrong(alloc, "a number is malformed")),
    }
}

// A hexadecimal digit.
fn digit(byte: u8) -> Option<u8> {
    match byte {
        b'0'..=b'9' => Some(byte - b'0'),
        b'a'..=b'f' => Some(byte - b'a' + 10),
        _ => None,
    }
}

// The byte of two hexadecimal digits.
fn byte_of(high: u8, low: u8) -> Option<u8> {
    match (digit(high), digit(low)) {
        (Some(high), Some(low)) if high < 16 && low < 16 => Some(16 * high + low),
        _ => None,
    }
}

// The byte for which the beginning of this text stands behind a backslash, and the text that follows it.
fn escaped(text: &[u8]) -> Option<(u8, &[u8])> {
    match text {
        [b'n', rest @ ..] => Some((b'\n', rest)),
        [b'r', rest @ ..] => Some((b'\r', rest)),
        [b'x', high, low, rest @ ..] => match byte_of(*high, *low) {
            Some(byte) => Some((byte, rest)),
            None => None,
        },
        _ => None,
    }
}

// Puts the byte for which the beginning of this text stands behind a backslash, and the text that follows it.
fn put_escaped(alloc: Global, piece: &[u8], bytes: &mut Vec<u8>) -> Result<(), Wrong> {
    let Some((byte, rest)) = escaped(piece) else {
        return Err(wrong(alloc, "a backslash stands for no byte"));
    };
    bytes.push(byte)?;
    bytes.extend_from_slice(rest)?;
    Ok(())
}

/// The bytes of a text.
pub fn bytes_of(alloc: Global, text: &str) -> Result<Vec<u8>, Wrong> {
    let mut bytes = Vec::new(alloc);
    for (i, piece) in text.split('\\').enumerate() {
        if i == 0 {
            bytes.extend_from_slice(piece.as_bytes())?;
        } else {
            put_escaped(alloc, piece.as_bytes(), &mut bytes)?;
        }
    }
    Ok(bytes)
}
