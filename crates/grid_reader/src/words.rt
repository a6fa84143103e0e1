// The words of a text.
ghost use Rattle.std.specs.Prelude.{◌≡◌, ◌<◌, ◌≤◌, ◌-◌, length, drop, take, true, false, slice_index, slice_range, ◌+◌, [], ◌∷◌, ℕ, IfSome, IfNone};
ghost use Rattle.grid_reader.specs.Words.{is_space, words, Word};
ghost use Rattle.grid_reader.specs.Spans.{word_of};

use crate::span::Span;

pub(crate) fn is_white(c: u8) -> bool
    ensures { result ≡ is_space c }
{
    9 <= c && c <= 13 || c == 32
}

// The place of the first byte from `from` on that isn't white space.
fn after_space(text: &[u8], from: usize) -> usize
    requires { from ≤ length text.now }
    ensures from { from ≤ result }
    ensures within { result ≤ length text.now }
    ensures words { words from (drop from text.now) ≡ words result (drop result text.now) }
    ensures stands { result < length text.now → is_space (slice_index text.now result) ≡ false }
{
    let mut at = from;
    while at < text.len() && is_white(text[at]) {
        at += 1;
    }
    at
}

// The place of the first byte from `from` on that is white space.
#[inline(never)]
fn after_word(text: &[u8], from: usize) -> usize
    requires within { from < length text.now }
    requires begins { is_space (slice_index text.now from) ≡ false }
    ensures from { from < result }
    ensures within { result ≤ length text.now }
    ensures words { words from (drop from text.now) ≡ record { at = from; bytes = slice_range text.now from result } ∷ words result (drop result text.now) }
{
    let mut at = from + 1;
    while at < text.len() && !is_white(text[at]) {
        at += 1;
    }
    at
}

// The next word from a place on, if there is one.
pub(crate) fn next_word(text: &[u8], from: usize) -> Option<Span>
    requires { from ≤ length text.now }
    ensures none { IfNone result (words from (drop from text.now) ≡ []) }
    ensures span { IfSome result (λ s. (from ≤ s.begin) × (s.begin < s.end) × (s.end ≤ length text.now)) }
    ensures word { IfSome result (λ s. words from (drop from text.now) ≡ word_of text.now s ∷ words s.end (drop s.end text.now)) }
{
    let begin = after_space(text, from);
    if begin < text.len() {
        let end = after_word(text, begin);
        return Some(Span { begin, end });
    }
    None
}
