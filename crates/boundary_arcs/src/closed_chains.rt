// Closed chains are turned round so that they begin at their least point.
ghost use Rattle.std.specs.Prelude.{◌≡◌, ◌+◌, ◌<◌, ◌&&◌, ◌||◌, int_lt, int_le, length, min, map, vec_len, slice_index, slice_set, All, IfOk, OnOk};
ghost use Rattle.std.specs.List.{AllZip};
ghost use Rattle.chains.specs.Nets.{IsNet, IsChain, AreChains, begin_of, end_of};
ghost use Rattle.boundary_arcs.specs.ChainEdges.{point_at, IsHalfOf, CountsEnds, IsLeastPlace, IsTurn};

use chains::{Half, Line};
use plane_geom::Point;
use std::alloc::{AllocError, Global};

/// The number of the point where a half begins.
pub(crate) fn begin_of(lines: &[Line], half: Half) -> u32
    requires { IsHalfOf lines.now half }
    ensures { result ≡ begin_of lines.now half }
{
    let line = lines[half.line as usize];
    if half.forward { line.begin } else { line.end }
}

/// The number of the point where a half ends.
pub(crate) fn end_of(lines: &[Line], half: Half) -> u32
    requires { IsHalfOf lines.now half }
    ensures { result ≡ end_of lines.now half }
{
    let line = lines[half.line as usize];
    if half.forward { line.end } else { line.begin }
}

/// The point where a half begins.
pub(crate) fn begin_point(lines: &[Line], points: &[Point], half: Half) -> Point
    requires net { IsNet lines.now (length points.now) }
    requires inside { IsHalfOf lines.now half }
    ensures { result ≡ point_at points.now (begin_of lines.now half) }
{
    points[begin_of(lines, half) as usize]
}

/// Counts one more line end at a point, up to 255.
fn count_end(ends: &mut Vec<u8>, point: u32)
    requires { point < vec_len ends.old }
    ensures { ends.new.items ≡ slice_set ends.old.items point (min (slice_index ends.old.items point + 1) 255) }
{
    let had = ends[point as usize];
    ends[point as usize] = had.saturating_add(1);
}

/// Counts the line ends at each point, up to 255.
fn count_ends(alloc: Global, lines: &[Line], points: usize) -> Result<Vec<u8>, AllocError>
    requires { IsNet lines.now points }
    ensures { IfOk result (λ ends. CountsEnds lines.now points ends.items) }
{
    let mut ends = vec![in alloc; 0u8; points]?;
    for i in 0..lines.len() {
        let line = lines[i];
        count_end(&mut ends, line.begin);
        count_end(&mut ends, line.end);
    }
    Ok(ends)
}

/// Whether a point comes before another by x and then y, or is the same.
fn comes_first(p: Point, q: Point) -> bool
    ensures { result ≡ (int_lt p.x q.x || (int_le p.x q.x && int_le p.y q.y)) }
{
    p.x < q.x || (p.x <= q.x && p.y <= q.y)
}

/// The place in a chain of the half that begins at the least point.
fn least_place(lines: &[Line], points: &[Point], chain: &[Half]) -> usize
    requires net { IsNet lines.now (length points.now) }
    requires inside { All (IsHalfOf lines.now) chain.now }
    requires some { 0 < length chain.now }
    ensures { IsLeastPlace points.now lines.now chain.now result }
{
    let mut least = 0;
    for i in 1..chain.len() {
        let best = begin_point(lines, points, chain[least]);
        if !comes_first(best, begin_point(lines, points, chain[i])) {
            least = i;
        }
    }
    least
}

/// Turns a chain round so that it begins at its least point, if it begins at a point with two line ends.
fn turn(lines: &[Line], points: &[Point], ends: &[u8], chain: &mut Vec<Half>)
    requires net { IsNet lines.now (length points.now) }
    requires counts { CountsEnds lines.now (length points.now) ends.now }
    requires inside { All (IsHalfOf lines.now) chain.old.items }
    requires chain { IsChain lines.now chain.old.items }
    ensures { IsTurn points.now lines.now chain.old.items chain.new.items }
{
    if ends[begin_of(lines, chain[0]) as usize] == 2 {
        let place = least_place(lines, points, chain);
        chain.rotate_left(place);
    }
}

/// Turns each chain round that begins at a point with two line ends, so that it begins at its least point.
pub(crate) fn turn_all(
    alloc: Global,
    lines: &[Line],
    points: &[Point],
    chains: &mut Vec<Vec<Half>>,
) -> Result<(), AllocError>
    requires net { IsNet lines.now (length points.now) }
    requires chains { AreChains lines.now (map (λ c. c.items) chains.old.items) }
    ensures { OnOk result (AllZip (IsTurn points.now lines.now) (map (λ c. c.items) chains.old.items) (map (λ c. c.items) chains.new.items)) }
{
    let ends = count_ends(alloc, lines, points.len())?;
    for i in 0..chains.len() {
        turn(lines, points, &ends, &mut chains[i]);
    }
    Ok(())
}
