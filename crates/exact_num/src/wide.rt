// Whole numbers of up to 64 digits, without memory.
ghost use Rattle.std.specs.Prelude.{◌≡◌, ◌+◌, ◌*◌, ◌^◌, ◌<◌, ◌≤◌, ◌↔◌, IsTrue, IfSome, IfNone};
ghost use Rattle.exact_num.specs.Whole.{IsWholePart};

use std::marker::Model;

/// How many digits each half has.
const HALF: u32 = 32;

/// 10 to the power 31, where a half is full.
const FULL: u128 = 10_000_000_000_000_000_000_000_000_000_000;

/// 10 to the power 30.
const LIMIT: u128 = 1_000_000_000_000_000_000_000_000_000_000;

/// A whole number below 10 to the power 64.
#[derive(Clone, Copy)]
pub(crate) struct Wide {
    high: u128,
    low: u128,
}

impl Model for Wide {
    ghost use Rattle.std.specs.Prelude.{ℕ, ◌+◌, ◌*◌, ◌/◌, ◌%◌, ◌^◌, ◌<◌};

    ghost Value = { ℕ };

    ghost use Rattle.exact_num.specs.Halves.{whole_of_halves};

    ghost view = { λ w. w.high * 10 ^ 32 + w.low };

    ghost invariant = { λ w. (w.high < 10 ^ 32) × (w.low < 10 ^ 32) };

    ghost inverse = { λ n. record { high = n / 10 ^ 32; low = n % 10 ^ 32 } };

    ghost inverse_ok = { λ w h. whole_of_halves w h };
}

// The powers of ten up to that of a half.
static TENS: [u128; 33] = [
    1,
    10,
    100,
    1_000,
    10_000,
    100_000,
    1_000_000,
    10_000_000,
    100_000_000,
    1_000_000_000,
    10_000_000_000,
    100_000_000_000,
    1_000_000_000_000,
    10_000_000_000_000,
    100_000_000_000_000,
    1_000_000_000_000_000,
    10_000_000_000_000_000,
    100_000_000_000_000_000,
    1_000_000_000_000_000_000,
    10_000_000_000_000_000_000,
    100_000_000_000_000_000_000,
    1_000_000_000_000_000_000_000,
    10_000_000_000_000_000_000_000,
    100_000_000_000_000_000_000_000,
    1_000_000_000_000_000_000_000_000,
    10_000_000_000_000_000_000_000_000,
    100_000_000_000_000_000_000_000_000,
    1_000_000_000_000_000_000_000_000_000,
    10_000_000_000_000_000_000_000_000_000,
    100_000_000_000_000_000_000_000_000_000,
    1_000_000_000_000_000_000_000_000_000_000,
    10_000_000_000_000_000_000_000_000_000_000,
    100_000_000_000_000_000_000_000_000_000_000,
];

// 10 to the power `places`, at most as many as a half has digits.
fn tens_of(places: u32) -> u128
    requires { places ≤ HALF }
    ensures value { result ≡ 10 ^ places }
    ensures some { 0 < result }
    ensures most { result ≤ 10 ^ 32 }
{
    TENS[places as usize]
}

impl Wide {
    pub(crate) fn zero() -> Wide
        ensures { result ≡ 0 }
    {
        Wide { high: 0, low: 0 }
    }

    /// The number with one more digit behind it.
    pub(crate) fn then(self, digit: u8) -> Wide
        requires room { self < 10 ^ 63 }
        requires digit { digit < 10 }
        ensures { result ≡ self * 10 + digit }
    {
        if self.high == 0 && self.low < FULL {
            return Wide {
                high: 0,
                low: self.low * 10 + digit as u128,
            };
        }
        Wide {
            high: self.high * 10 + self.low / FULL,
            low: self.low % FULL * 10 + digit as u128,
        }
    }

    pub(crate) fn is_zero(self) -> bool
        ensures { IsTrue result ↔ (self ≡ 0) }
    {
        self.high == 0 && self.low == 0
    }

    /// The number, if it is below 10 to the power 30.
    pub(crate) fn small(self) -> Option<u128>
        ensures some { IfSome result (λ n. n ≡ self) }
        ensures below { IfSome result (λ n. n < 10 ^ 30) }
        ensures none { IfNone result (10 ^ 30 ≤ self) }
    {
        if self.high != 0 || self.low >= LIMIT {
            return None;
        }
        Some(self.low)
    }

    // The number times 10 to the power `places`, at most as many as a half has digits.
    fn times_half(self, places: u32) -> Option<Wide>
        requires { places ≤ HALF }
        ensures some { IfSome result (λ n. n ≡ self * 10 ^ places) }
        ensures none { IfNone result (10 ^ 64 ≤ self * 10 ^ places) }
    {
        let tens = tens_of(places);
        let room = tens_of(HALF - places);
        if self.high >= room {
            return None;
        }
        if self.high == 0 && self.low < room {
            return Some(Wide {
                high: 0,
                low: self.low * tens,
            });
        }
        Some(Wide {
            high: self.high * tens + self.low / room,
            low: self.low % room * tens,
        })
    }

    /// The number times 10 to the power `places`; none where that has more than 64 digits.
    pub(crate) fn times(self, places: u32) -> Option<Wide>
        ensures some { IfSome result (λ n. n ≡ self * 10 ^ places) }
        ensures none { IfNone result (10 ^ 64 ≤ self * 10 ^ places) }
    {
        if places <= HALF {
            return self.times_half(places);
        }
        if self.high != 0 {
            return None;
        }
        if self.low == 0 {
            return Some(Wide::zero());
        }
        if places > 2 * HALF {
            return None;
        }
        let moved = Wide {
            high: self.low,
            low: 0,
        };
        moved.times_half(places - HALF)
    }

    /// The number times 10 to the power `places` is the other.
    pub(crate) fn times_is(self, places: u32, other: Wide) -> bool
        ensures { IsTrue result ↔ (self * 10 ^ places ≡ other) }
    {
        match self.times(places) {
            Some(shifted) => shifted.high == other.high && shifted.low == other.low,
            None => false,
        }
    }

    fn is_below(self, other: Wide) -> bool
        ensures { IsTrue result ↔ (self < other) }
    {
        self.high < other.high || (self.high == other.high && self.low < other.low)
    }

    /// The number times 10 to the power `places` is below the other.
    pub(crate) fn times_is_below(self, places: u32, other: Wide) -> bool
        ensures { IsTrue result ↔ (self * 10 ^ places < other) }
    {
        match self.times(places) {
            Some(shifted) => shifted.is_below(other),
            None => false,
        }
    }

    /// The number is below the other times 10 to the power `places`.
    pub(crate) fn is_below_times(self, places: u32, other: Wide) -> bool
        ensures { IsTrue result ↔ (self < other * 10 ^ places) }
    {
        match other.times(places) {
            Some(shifted) => self.is_below(shifted),
            None => true,
        }
    }

    // The whole part of the number by 10 to the power `places`, at most as many as a half has digits, and whether more is left.
    fn by_half(self, places: u32) -> (Wide, bool)
        requires { places ≤ HALF }
        ensures { IsWholePart self (10 ^ places) result.0 result.1 }
    {
        let tens = tens_of(places);
        let part = self.low / tens;
        let left = part * tens != self.low;
        if self.high == 0 {
            return (Wide { high: 0, low: part }, left);
        }
        let room = tens_of(HALF - places);
        let whole = Wide {
            high: self.high / tens,
            low: self.high % tens * room + part,
        };
        (whole, left)
    }

    /// The whole part of the number by 10 to the power `places`, and whether more is left.
    pub(crate) fn by(self, places: u32) -> (Wide, bool)
        ensures { IsWholePart self (10 ^ places) result.0 result.1 }
    {
        if places <= HALF {
            return self.by_half(places);
        }
        if places > 2 * HALF {
            return (Wide::zero(), self.high != 0 || self.low != 0);
        }
        let moved = Wide {
            high: 0,
            low: self.high,
        };
        let (whole, left) = moved.by_half(places - HALF);
        (whole, left || self.low != 0)
    }
}
