// Bands between levels.
ghost use Rattle.std.specs.Prelude.{◌≡◌, ◌-◌, ◌≤◌, ◌≤ℤ◌, pos, neg_ℤ, length};
ghost use Rattle.std.specs.Int.{int_max};
ghost use Rattle.depth_rounding.specs.Bands.{AreLevels, level_at, band_of, shoaler_end, deeper_end};
ghost use Rattle.depth_rounding.specs.Views.{levels_view};

use crate::Levels;
use crate::padding::padded;

fn larger(a: i32, b: i32) -> i32
    ensures { result ≡ int_max a b }
{
    if a < b { b } else { a }
}

impl Levels {
    /// These levels, in decimetres.
    pub fn new(list: &[i32]) -> Levels
        requires { AreLevels list.now }
        ensures { levels_view result ≡ list.now }
    {
        Levels {
            list: padded(list, 0),
            count: list.len(),
        }
    }

    /// How many levels there are.
    pub fn count(&self) -> u32
        ensures { result ≡ length (levels_view self.now) }
    {
        self.count as u32
    }

    /// Level `k` in decimetres, counted from 1.
    pub fn level(&self, k: u32) -> i32
        requires first { 1 ≤ k }
        requires last { k ≤ length (levels_view self.now) }
        ensures { result ≡ level_at (levels_view self.now) (k - 1) }
    {
        self.list[k as usize - 1]
    }

    /// The band of a charted depth in decimetres: how many levels it reaches.
    pub fn band(&self, c: i32) -> u32
        ensures value { result ≡ band_of (levels_view self.now) c }
        ensures within { result ≤ length (levels_view self.now) }
    {
        self.list[..self.count]
            .iter()
            .filter(|level| **level <= c)
            .count() as u32
    }

    /// The shoaler and the deeper end of a band in decimetres, where the charted depths lie from
    /// `least` to `greatest`: DRVAL1 and DRVAL2 of IHO S-57, Appendix A.
    pub fn range(&self, band: u32, least: i32, greatest: i32) -> (i32, i32)
        requires known { band ≤ length (levels_view self.now) }
        requires low { neg_ℤ (pos 120000) ≤ℤ least }
        requires ordered { least ≤ℤ greatest }
        requires high { greatest ≤ℤ pos 120000 }
        ensures shoaler { result.0 ≡ shoaler_end (levels_view self.now) least band }
        ensures deeper { result.1 ≡ deeper_end (levels_view self.now) least greatest band }
    {
        let shoaler = self.shoaler(band, least);
        if band < self.count() {
            return (shoaler, self.level(band + 1));
        }
        (shoaler, larger(greatest, shoaler + 1))
    }

    fn shoaler(&self, band: u32, least: i32) -> i32
        requires known { band ≤ length (levels_view self.now) }
        requires low { neg_ℤ (pos 120000) ≤ℤ least }
        requires high { least ≤ℤ pos 120000 }
        ensures value { result ≡ shoaler_end (levels_view self.now) least band }
        ensures above { neg_ℤ (pos 120000) ≤ℤ result }
        ensures below { result ≤ℤ pos 120000 }
    {
        if band == 0 {
            return least;
        }
        self.level(band)
    }
}
