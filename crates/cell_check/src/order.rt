// The order of lines from west to east.
ghost use Rattle.cell_check.specs.Orders.{is_before, is_west, spans, spread};
ghost use Rattle.plane_geom.specs.Geom.{cross_of};
ghost use Rattle.plane_strips.specs.Strips.{OneLine, reach, rise, upward};
ghost use Rattle.std.specs.Ordering.{is_lt};
ghost use Rattle.std.specs.Prelude.{◌≡◌, ◌+ℤ◌, ◌-ℤ◌, ◌*ℤ◌, ◌≤◌, ◌^◌, ◌↔◌, ◌&&◌, int_le, IsTrue, unsigned_abs};

use plane_geom::{Point, Seg, cross, east, north};
use std::cmp::Ordering;

/// A segment from its lower end.
pub(crate) fn from_below(s: Seg) -> Seg
    ensures { result ≡ upward s }
{
    if s.a.y <= s.b.y {
        s
    } else {
        Seg { a: s.b, b: s.a }
    }
}

/// A height, in ten-millionths of a degree.
#[derive(Clone, Copy)]
pub(crate) struct Height {
    pub y: i32,
}

/// The height of a point.
pub(crate) fn height_of(p: Point) -> Height
    ensures { result ≡ record { y = p.y } }
{
    Height { y: p.y }
}

/// How far a height lies above a point.
fn above(o: Point, h: Height) -> i128
    ensures value { result ≡ h.y -ℤ o.y }
    ensures small { unsigned_abs result ≤ 2 ^ 33 }
{
    i128::from(h.y) - i128::from(o.y)
}

fn longitude(o: Point) -> i128
    ensures value { result ≡ o.x }
    ensures small { unsigned_abs result ≤ 2 ^ 33 }
{
    i128::from(o.x)
}

/// How far a segment rises, in ten-millionths of a degree.
fn rise(s: Seg) -> i128
    ensures value { result ≡ rise s }
    ensures small { unsigned_abs result ≤ 2 ^ 33 }
{
    let s = from_below(s);
    north(s.a, s.b)
}

/// The same, but at least 1.
fn spread(s: Seg) -> i128
    ensures value { result ≡ spread s }
    ensures small { unsigned_abs result ≤ 2 ^ 33 }
{
    let rise = rise(s);
    if 0 < rise { rise } else { 1 }
}

fn reach_from(s: Seg, h: Height) -> i128
    ensures value { result ≡ (s.b.y -ℤ s.a.y) *ℤ s.a.x +ℤ (h.y -ℤ s.a.y) *ℤ (s.b.x -ℤ s.a.x) }
    ensures small { unsigned_abs result ≤ 2 ^ 67 }
{
    let up = north(s.a, s.b);
    let x = longitude(s.a);
    let part = above(s.a, h);
    let aside = east(s.a, s.b);
    up * x + part * aside
}

/// How far east a segment's line lies at a height, as often as it rises.
fn reach(s: Seg, h: Height) -> i128
    ensures value { result ≡ reach s h.y }
    ensures small { unsigned_abs result ≤ 2 ^ 67 }
{
    reach_from(from_below(s), h)
}

/// Whether s lies west of t at a height.
pub(crate) fn lies_west(s: Seg, t: Seg, h: Height) -> bool
    ensures { result ≡ is_west h.y s t }
{
    let first = reach(s, h);
    let second = spread(t);
    let third = reach(t, h);
    let fourth = spread(s);
    first * second < third * fourth
}

/// The order of two lines of a strip from west to east, at its lower height and then at its upper one.
pub(crate) fn compare(s: Seg, t: Seg, lo: Height, hi: Height) -> Ordering
    ensures { is_lt result ≡ is_before lo.y hi.y s t }
{
    if lies_west(s, t, lo) {
        return Ordering::Less;
    }
    if lies_west(t, s, lo) {
        return Ordering::Greater;
    }
    if lies_west(s, t, hi) {
        return Ordering::Less;
    }
    Ordering::Equal
}

fn spans_from(s: Seg, lo: Height, hi: Height) -> bool
    ensures { result ≡ (int_le s.a.y lo.y && int_le hi.y s.b.y) }
{
    s.a.y <= lo.y && hi.y <= s.b.y
}

/// Whether a segment reaches from one height to another.
pub(crate) fn reaches(s: Seg, lo: Height, hi: Height) -> bool
    ensures { result ≡ spans lo.y hi.y s }
{
    spans_from(from_below(s), lo, hi)
}

/// Whether both ends of t lie on the straight line of s.
pub(crate) fn are_on_one_line(s: Seg, t: Seg) -> bool
    ensures { IsTrue result ↔ OneLine s t }
{
    cross(s.a, s.b, t.a) == 0 && cross(s.a, s.b, t.b) == 0
}
