//! Points, directed segments, and counts along a ray to the east.
#![tactic(auto)]

ghost use Rattle.std.specs.Prelude.{◌≡◌, ℕ, ◌^◌, ◌↔◌, IsTrue, ◌-ℤ◌, unsigned_abs, ◌≤◌};
ghost use Rattle.plane_geom.specs.Geom.{cross_of, is_between, IsOn, falls_east, rises_east, passes, xor, turn_of, winding_number, odd_of};

/// A position: longitude and latitude in ten-millionths of a degree. Any two `i32` are a point.
#[derive(Clone, Copy, Debug, PartialEq, Eq, Hash)]
pub struct Point {
    pub x: i32,
    pub y: i32,
}

/// A straight segment from `a` to `b`, its ends included. They may be one point.
#[derive(Clone, Copy, Debug, PartialEq, Eq)]
pub struct Seg {
    pub a: Point,
    pub b: Point,
}

/// How far a lies east of o, in ten-millionths of a degree; below 0 where it lies west of it.
pub fn east(o: Point, a: Point) -> i128
    ensures value { result ≡ a.x -ℤ o.x }
    ensures small { unsigned_abs result ≤ 2 ^ 33 }
{
    i128::from(a.x) - i128::from(o.x)
}

/// How far a lies north of o, in ten-millionths of a degree; below 0 where it lies south of it.
pub fn north(o: Point, a: Point) -> i128
    ensures value { result ≡ a.y -ℤ o.y }
    ensures small { unsigned_abs result ≤ 2 ^ 33 }
{
    i128::from(a.y) - i128::from(o.y)
}

/// `(a.x − o.x)·(b.y − o.y) − (a.y − o.y)·(b.x − o.x)`: above 0 where b is left of the line from o to a.
pub fn cross(o: Point, a: Point, b: Point) -> i128
    ensures { result ≡ cross_of o a b }
{
    let ax = east(o, a);
    let ay = north(o, a);
    let bx = east(o, b);
    let by = north(o, b);
    ax * by - ay * bx
}

fn is_wide(s: Seg, p: Point) -> bool
    ensures { result ≡ is_between s.a.x s.b.x p.x }
{
    if s.a.x <= s.b.x {
        s.a.x <= p.x && p.x <= s.b.x
    } else {
        s.b.x <= p.x && p.x <= s.a.x
    }
}

fn is_high(s: Seg, p: Point) -> bool
    ensures { result ≡ is_between s.a.y s.b.y p.y }
{
    if s.a.y <= s.b.y {
        s.a.y <= p.y && p.y <= s.b.y
    } else {
        s.b.y <= p.y && p.y <= s.a.y
    }
}

/// Whether p lies on the segment, its ends included.
pub fn on_segment(s: Seg, p: Point) -> bool
    ensures { IsTrue result ↔ IsOn s p }
{
    if !is_wide(s, p) {
        return false;
    }
    if !is_high(s, p) {
        return false;
    }
    cross(s.a, s.b, p) == 0
}

fn falls(s: Seg, p: Point) -> bool
    ensures { result ≡ falls_east s p }
{
    s.b.y <= p.y && p.y < s.a.y && cross(p, s.a, s.b) < 0
}

fn rises(s: Seg, p: Point) -> bool
    ensures { result ≡ rises_east s p }
{
    s.a.y <= p.y && p.y < s.b.y && cross(p, s.a, s.b) > 0
}

fn turn(s: Seg, p: Point) -> i64
    ensures value { result ≡ turn_of s p }
    ensures small { unsigned_abs result ≤ 1 }
{
    if falls(s, p) {
        1
    } else if rises(s, p) {
        -1
    } else {
        0
    }
}

/// The winding number of the segments that pass p's height east of p: 1 for each that runs
/// downwards, −1 for each that runs upwards. A clockwise ring round p gives 1.
///
/// A segment passes the heights from its lower end, included, to its higher end, left out.
pub fn crossings(segs: &[Seg], p: Point) -> i64
    ensures { result ≡ winding_number segs.now p }
{
    let mut total: i64 = 0;
    for s in segs {
        total += turn(*s, p);
    }
    total
}

fn toggled(odd: bool, s: Seg, p: Point) -> bool
    ensures { result ≡ xor odd (passes s p) }
{
    let here = falls(s, p) || rises(s, p);
    if here { !odd } else { odd }
}

/// Whether an odd number of the segments passes p's height east of p, as `crossings` counts them.
pub fn inside_odd(segs: &[Seg], p: Point) -> bool
    ensures { result ≡ odd_of segs.now p }
{
    let mut odd = false;
    for s in segs {
        odd = toggled(odd, *s, p);
    }
    odd
}
