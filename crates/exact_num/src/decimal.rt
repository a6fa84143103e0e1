// Decimal numbers: what they are worth.
ghost use Rattle.std.specs.Prelude.{◌≡◌, ◌⊎◌, ◌+◌, ◌*◌, ◌^◌, ◌<◌, ◌≤◌, ◌↔◌, ℕ, pos, IsTrue, IfOk, OnErr, IfSome, IfNone, OnSome, unsigned_abs};
ghost use Rattle.std.specs.Int.{int_div_euclid};
ghost use Rattle.exact_num.specs.Number.{signed, magnitude, opposite};
ghost use Rattle.exact_num.specs.Whole.{IsWholePart};
ghost use Rattle.exact_num.specs.Text.{number_of};
ghost use Rattle.exact_num.specs.Value.{floor_at, whole_of, same_value, less_value, IsHuge, SameValue, LessValue};

use crate::reading::{digits, point, power, sign};
use crate::wide::Wide;
use std::marker::Model;

/// How many bytes the text of a number may have.
const MOST_BYTES: usize = 64;

/// A decimal number: a sign, up to 64 digits and a power of ten. Its value is exact, and it takes no memory.
#[derive(Clone, Copy)]
pub struct Decimal {
    negative: bool,
    digits: Wide,
    raised: u32,
    lowered: u32,
}

impl Model for Decimal {
    ghost use Rattle.std.specs.Prelude.{◌+◌, ◌^◌, ◌<◌};
    ghost use Rattle.exact_num.specs.Number.{Number};

    ghost Value = { Number };

    ghost view = { λ d. record { negative = d.negative; digits = d.digits; raised = d.raised; lowered = d.lowered } };

    ghost invariant = { λ d. (d.raised < 10 ^ 6) × (d.lowered < 10 ^ 6 + 64) };

    ghost inverse = { λ d. record { negative = d.negative; digits = d.digits; raised = d.raised; lowered = d.lowered } };
}

/// What [`read_decimal`] answers for a text that isn't a number.
#[derive(Clone, Copy, Debug, PartialEq, Eq)]
pub struct NotDecimal;

/// The number that a text is: an optional `+` or `-`, digits with at most one point, at least one digit in all, and
/// optionally `e` or `E` with an optional sign and one to six digits, in at most 64 bytes. Refuses every other text, the
/// empty one too. Takes no memory.
#[tactic(auto, unfolding(crate::specs::Text::number_of))]
pub fn read_decimal(text: &[u8]) -> Result<Decimal, NotDecimal>
    ensures ok { IfOk result (λ d. number_of text.now ≡ Some d) }
    ensures refused { OnErr result (number_of text.now ≡ None) }
{
    if text.len() > MOST_BYTES {
        return Err(NotDecimal);
    }
    let (negative, body) = sign(text);
    let (whole, places, rest) = digits(body, Wide::zero(), 0);
    let (all, count, end) = point(rest, whole, places);
    if count == 0 {
        return Err(NotDecimal);
    }
    let Some((raised, lowered)) = power(end) else {
        return Err(NotDecimal);
    };
    Ok(Decimal {
        negative,
        digits: all,
        raised,
        lowered: (count - places) as u32 + lowered,
    })
}

impl Decimal {
    /// The number with the opposite sign; its digits and its power of ten stay as they are.
    pub fn negated(&self) -> Decimal
        ensures { result ≡ opposite self.now }
    {
        Decimal {
            negative: !self.negative,
            digits: self.digits,
            raised: self.raised,
            lowered: self.lowered,
        }
    }
}

// The whole part of digits times 10 to the power `up` by 10 to the power `down`, if it is below 10 to the power 30, and whether more is left.
fn whole_part(digits: Wide, up: u32, down: u32) -> Option<(u128, bool)>
    ensures some { IfSome result (λ r. IsWholePart (digits * 10 ^ up) (10 ^ down) r.0 r.1) }
    ensures below { IfSome result (λ r. r.0 < 10 ^ 30) }
    ensures none { IfNone result (10 ^ 30 * 10 ^ down ≤ digits * 10 ^ up) }
{
    if up >= down {
        let Some(shifted) = digits.times(up - down) else {
            return None;
        };
        let Some(whole) = shifted.small() else {
            return None;
        };
        return Some((whole, false));
    }
    let (part, left) = digits.by(down - up);
    let Some(whole) = part.small() else {
        return None;
    };
    Some((whole, left))
}

// The floor, from the whole part of the magnitude and whether more is left.
fn floor(negative: bool, whole: u128, left: bool) -> i128
    requires { whole < 10 ^ 30 }
    ensures floor { (n m : ℕ) → IsWholePart n m whole left → result ≡ int_div_euclid (signed negative n) (pos m) }
    ensures bounded { unsigned_abs result ≤ 10 ^ 30 }
{
    let whole = whole as i128;
    if !negative {
        return whole;
    }
    if left {
        return -whole - 1;
    }
    -whole
}

/// The greatest whole number that isn't above the value times 10 to the power `places`, at most 24, as millimetres are of
/// a depth in metres at 3 places. None where the magnitude of that product is 10 to the power 30 or more. Takes no memory.
#[tactic(auto, unfolding(crate::specs::Value::floor_at))]
pub fn scaled_floor(value: &Decimal, places: u32) -> Option<i128>
    requires { places ≤ 24 }
    ensures floor { IfSome result (λ z. z ≡ floor_at value.now places) }
    ensures bounded { IfSome result (λ z. unsigned_abs z ≤ 10 ^ 30) }
    ensures small { OnSome result (IsHuge value.now places → ⊥) }
    ensures none { IfNone result (IsHuge value.now places) }
    // a number that isn't answered has a floor beyond all that are
    ensures beyond { IfNone result (10 ^ 30 ≤ unsigned_abs (floor_at value.now places)) }
{
    let Some((whole, left)) = whole_part(value.digits, value.raised + places, value.lowered) else {
        return None;
    };
    Some(floor(value.negative, whole, left))
}

/// The whole number that the value is, however it is spelled, as 15 is of `1.5e1`. None where the value isn't whole, or its
/// magnitude is 10 to the power 30 or more. Takes no memory.
pub fn whole(value: &Decimal) -> Option<i128>
    ensures whole { IfSome result (λ z. whole_of value.now ≡ Some z) }
    ensures small { OnSome result (IsHuge value.now 0 → ⊥) }
    ensures none { IfNone result ((whole_of value.now ≡ None) ⊎ IsHuge value.now 0) }
    // a whole number that isn't answered is beyond all that are
    ensures beyond { IfNone result (IfSome (whole_of value.now) (λ z. 10 ^ 30 ≤ unsigned_abs z)) }
{
    let Some((whole, left)) = whole_part(value.digits, value.raised, value.lowered) else {
        return None;
    };
    if left {
        return None;
    }
    let whole = whole as i128;
    if value.negative {
        return Some(-whole);
    }
    Some(whole)
}

/// Both have the same value, however they are spelled: `1e2` and `100.0` have, and `-0` and `0`. Takes no memory.
pub fn same(a: &Decimal, b: &Decimal) -> bool
    ensures test { result ≡ same_value a.now b.now }
    ensures value { IsTrue result ↔ SameValue a.now b.now }
{
    if a.negative != b.negative {
        return a.digits.is_zero() && b.digits.is_zero();
    }
    let up = a.raised + b.lowered;
    let down = b.raised + a.lowered;
    if up >= down {
        return a.digits.times_is(up - down, b.digits);
    }
    b.digits.times_is(down - up, a.digits)
}

// Both signs left out, a is less than b.
fn is_smaller(a: &Decimal, b: &Decimal) -> bool
    ensures { IsTrue result ↔ (magnitude a.now b.now.lowered < magnitude b.now a.now.lowered) }
{
    let up = a.raised + b.lowered;
    let down = b.raised + a.lowered;
    if up >= down {
        return a.digits.times_is_below(up - down, b.digits);
    }
    a.digits.is_below_times(down - up, b.digits)
}

// Both are zero.
fn are_zero(a: &Decimal, b: &Decimal) -> bool
    ensures { IsTrue result ↔ ((a.now.digits ≡ 0) × (b.now.digits ≡ 0)) }
{
    a.digits.is_zero() && b.digits.is_zero()
}

/// The value of a is below the value of b, however they are spelled: `9e1` is below `100.0`, and `-0` isn't below `0`.
/// Takes no memory.
pub fn less(a: &Decimal, b: &Decimal) -> bool
    ensures test { result ≡ less_value a.now b.now }
    ensures value { IsTrue result ↔ LessValue a.now b.now }
{
    match (a.negative, b.negative) {
        (false, false) => is_smaller(a, b),
        (true, true) => is_smaller(b, a),
        (true, false) => !are_zero(a, b),
        (false, true) => false,
    }
}
