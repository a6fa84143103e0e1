// The least or the greatest of values, some of which may be missing.
ghost use Rattle.std.specs.Prelude.{◌≡◌, ◌≤ℤ◌, pos, neg_ℤ, IfSome};
ghost use Rattle.shoal_buffer.specs.Charted.{StandsIn};
ghost use Rattle.shoal_buffer.specs.Picks.{better, pick_of, IsPickOf};
ghost use Rattle.shoal_buffer.specs.Keys.{key_of, value_of, value_where};

// Which of values is wanted.
#[derive(Clone, Copy)]
pub(crate) enum Pick {
    Least,
    Greatest,
}

impl Pick {
    fn better(self, a: i32, b: i32) -> i32
        ensures { result ≡ better self a b }
    {
        match self {
            Pick::Least => { if b < a { b } else { a } }
            Pick::Greatest => { if a < b { b } else { a } }
        }
    }

    pub(crate) fn of(self, a: Option<i32>, b: Option<i32>) -> Option<i32>
        ensures { result ≡ pick_of self a b }
    {
        match (a, b) {
            (Some(x), Some(y)) => Some(self.better(x, y)),
            (Some(x), None) => Some(x),
            (None, y) => y,
        }
    }

    // A value's key. Of keys the least is wanted, whichever is wanted of the values; no key
    // exceeds that of a missing value, which so never counts.
    pub(crate) fn key_of(self, value: Option<i32>) -> i32
        ensures { result ≡ key_of self value }
    {
        match (self, value) {
            (_, None) => i32::MAX,
            (Pick::Least, Some(x)) => x,
            (Pick::Greatest, Some(x)) => -1 - x,
        }
    }

    // The value of a key.
    pub(crate) fn value_of(self, key: i32) -> i32
        ensures { result ≡ value_of self key }
    {
        match self {
            Pick::Least => key,
            Pick::Greatest => -1 - key,
        }
    }

    // The value of a key, where a node has a value of its own.
    pub(crate) fn value_where(self, key: i32, own: Option<i32>) -> Option<i32>
        ensures result { result ≡ value_where self key own }
        ensures within { IfSome own (λ d. (neg_ℤ (pos 2147483648) ≤ℤ d) × (d ≤ℤ pos 2147483647)) }
    {
        match own {
            Some(_) => Some(self.value_of(key)),
            None => None,
        }
    }

    // The least or the greatest of all values.
    pub(crate) fn of_all(self, values: &[Option<i32>]) -> Option<i32>
        ensures { IsPickOf self (StandsIn values.now) result }
    {
        let mut best = None;
        for value in values {
            best = self.of(best, *value);
        }
        best
    }
}
