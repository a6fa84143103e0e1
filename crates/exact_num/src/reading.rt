// The parts of a number's text, each read once from the beginning.
ghost use Rattle.std.specs.Prelude.{◌≡◌, ◌+◌, ◌*◌, ◌^◌, ◌<◌, ◌≤◌, length, IfSome, Some, None, if◌then◌else◌};
ghost use Rattle.std.specs.Int.Digits.{number_from_digits, number_from_digits_after};
ghost use Rattle.exact_num.specs.Text.{has_minus, unsigned, leading, following, fraction, after_fraction, values, is_exponent, exponent_of, power_of};

use crate::wide::Wide;

/// Whether a `-` stands first, and what follows the sign.
pub(crate) fn sign(text: &[u8]) -> (bool, &[u8])
    ensures minus { result.0 ≡ has_minus text.now }
    ensures rest { result.1.now ≡ unsigned text.now }
{
    match text {
        [b'-', rest @ ..] => (true, rest),
        [b'+', rest @ ..] => (false, rest),
        _ => (false, text),
    }
}

/// The number with the digits that stand first behind its own, how many it then has, and what follows them.
pub(crate) fn digits(text: &[u8], number: Wide, count: usize) -> (Wide, usize, &[u8])
    requires below { number < 10 ^ count }
    requires room { count + length text.now ≤ 64 }
    ensures number { result.0 ≡ number_from_digits_after 10 number (values (leading text.now)) }
    ensures count { result.1 ≡ count + length (leading text.now) }
    ensures rest { result.2.now ≡ following text.now }
    ensures below { result.0 < 10 ^ result.1 }
    ensures room { result.1 + length result.2.now ≤ 64 }
{
    let mut number = number;
    for (i, c) in text.iter().enumerate() {
        if !c.is_ascii_digit() {
            return (number, count + i, &text[i..]);
        }
        number = number.then(*c - b'0');
    }
    (number, count + text.len(), &[])
}

/// The same of the digits after a point that stands first.
pub(crate) fn point(text: &[u8], number: Wide, count: usize) -> (Wide, usize, &[u8])
    requires below { number < 10 ^ count }
    requires room { count + length text.now ≤ 64 }
    ensures number { result.0 ≡ number_from_digits_after 10 number (values (fraction text.now)) }
    ensures count { result.1 ≡ count + length (fraction text.now) }
    ensures rest { result.2.now ≡ after_fraction text.now }
    ensures few { result.1 ≤ 64 }
{
    match text {
        [b'.', part @ ..] => digits(part, number, count),
        _ => (number, count, text),
    }
}

// The number that one to six digits write.
fn small(text: &[u8]) -> Option<u32>
    ensures value { result ≡ (if is_exponent text.now then Some (number_from_digits 10 (values text.now)) else None) }
    ensures below { IfSome result (λ n. n < 10 ^ 6) }
{
    if text.is_empty() || text.len() > 6 {
        return None;
    }
    let mut n = 0u32;
    for c in text {
        if !c.is_ascii_digit() {
            return None;
        }
        n = n * 10 + (*c - b'0') as u32;
    }
    Some(n)
}

// The powers of ten to multiply and to divide by, from what follows the letter.
fn exponent(text: &[u8]) -> Option<(u32, u32)>
    ensures value { result ≡ exponent_of text.now }
    ensures below { IfSome result (λ p. (p.0 < 10 ^ 6) × (p.1 < 10 ^ 6)) }
{
    let (negative, digits) = sign(text);
    let Some(size) = small(digits) else {
        return None;
    };
    if negative {
        return Some((0, size));
    }
    Some((size, 0))
}

/// The powers of ten to multiply and to divide by, from what follows the digits.
pub(crate) fn power(text: &[u8]) -> Option<(u32, u32)>
    ensures value { result ≡ power_of text.now }
    ensures below { IfSome result (λ p. (p.0 < 10 ^ 6) × (p.1 < 10 ^ 6)) }
{
    match text {
        [] => Some((0, 0)),
        [b'e' | b'E', rest @ ..] => exponent(rest),
        _ => None,
    }
}
