// The header: pairs of a key and a value.
ghost use Rattle.std.specs.Prelude.{◌≡◌, ◌<◌, ◌≤◌, length, drop, Ok, Err, IfSome, IfNone, IfOk, IfErr, [], ◌∷◌, ℕ, List};
ghost use Rattle.grid_reader.specs.Words.{words};
ghost use Rattle.grid_reader.specs.Header.{Pair, pairs, values, with_found, found_from, header_ends};
ghost use Rattle.grid_reader.specs.Spans.{pair_of};
ghost use Rattle.grid_reader.specs.Reading.{nothing, header_of};

use crate::GridFault;
use crate::found::{Found, is_found, nothing_found, with_mark};
use crate::key::{Key, read_key};
use crate::marks::read_mark;
use crate::span::Span;
use crate::words::next_word;

/// A key, where it stands, where its value stands, and where both end.
#[derive(Clone, Copy)]
pub(crate) struct PairAt {
    pub key: Key,
    pub at: usize,
    pub value: Option<Span>,
    pub end: usize,
}

/// What a header gives, and where its last pair ends.
#[derive(Clone, Copy)]
pub(crate) struct Header {
    pub found: Found,
    pub end: usize,
}

// The pair of the header that stands next from a place on.
fn next_pair(text: &[u8], from: usize) -> Option<PairAt>
    requires { from ≤ length text.now }
    ensures none { IfNone result (pairs (words from (drop from text.now)) ≡ []) }
    ensures values { IfNone result (values (words from (drop from text.now)) ≡ words from (drop from text.now)) }
    ensures end { IfSome result (λ p. (from < p.end) × (p.end ≤ length text.now)) }
    ensures spans { IfSome result (λ p. IfSome p.value (λ s. (s.begin < s.end) × (s.end ≤ length text.now))) }
    ensures pair { IfSome result (λ p. pairs (words from (drop from text.now)) ≡ pair_of text.now p ∷ pairs (words p.end (drop p.end text.now))) }
    ensures later { IfSome result (λ p. values (words from (drop from text.now)) ≡ values (words p.end (drop p.end text.now))) }
{
    let Some(word) = next_word(text, from) else {
        return None;
    };
    let Some(key) = read_key(&text[word.begin..word.end]) else {
        return None;
    };
    match next_word(text, word.end) {
        Some(value) => Some(PairAt {
            key,
            at: word.begin,
            value: Some(value),
            end: value.end,
        }),
        None => Some(PairAt {
            key,
            at: word.begin,
            value: None,
            end: word.end,
        }),
    }
}

// What a pair adds to what stood before it.
fn with_pair(text: &[u8], found: Found, pair: PairAt) -> Result<Found, GridFault>
    requires { IfSome pair.value (λ s. (s.begin < s.end) × (s.end ≤ length text.now)) }
    ensures { result ≡ with_found (length text.now) (pair_of text.now pair) found }
{
    if is_found(&found, pair.key) {
        return Err(GridFault::Repeated(pair.at));
    }
    let value = pair.value.ok_or(GridFault::Number(text.len()))?;
    with_mark(
        found,
        pair.key,
        value.begin,
        read_mark(&text[value.begin..value.end]),
    )
}

// What all pairs of the header give, and where they end.
fn read_pairs(text: &[u8]) -> Result<Header, GridFault>
    ensures found { IfOk result (λ h. found_from (length text.now) nothing (pairs (words 0 text.now)) ≡ Ok h.found) }
    ensures end { IfOk result (λ h. h.end ≤ length text.now) }
    ensures values { IfOk result (λ h. values (words 0 text.now) ≡ words h.end (drop h.end text.now)) }
    ensures fault { IfErr result (λ e. found_from (length text.now) nothing (pairs (words 0 text.now)) ≡ Err e) }
{
    let mut found = nothing_found();
    let mut end = 0;
    while let Some(pair) = next_pair(text, end) {
        found = with_pair(text, found, pair)?;
        end = pair.end;
    }
    Ok(Header { found, end })
}

// A number, `nan` or nothing stands at a place.
fn ends_header(text: &[u8], at: usize) -> Result<(), GridFault>
    requires { at ≤ length text.now }
    ensures { result ≡ header_ends (words at (drop at text.now)) }
{
    let Some(word) = next_word(text, at) else {
        return Ok(());
    };
    if read_mark(&text[word.begin..word.end]).is_some() {
        return Ok(());
    }
    Err(GridFault::Header(word.begin))
}

/// The header of a text.
pub(crate) fn read_header(text: &[u8]) -> Result<Header, GridFault>
    ensures found { IfOk result (λ h. header_of text.now ≡ Ok h.found) }
    ensures end { IfOk result (λ h. h.end ≤ length text.now) }
    ensures values { IfOk result (λ h. values (words 0 text.now) ≡ words h.end (drop h.end text.now)) }
    ensures fault { IfErr result (λ e. header_of text.now ≡ Err e) }
{
    let header = read_pairs(text)?;
    ends_header(text, header.end)?;
    Ok(header)
}
