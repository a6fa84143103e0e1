// Area sums of parts.
ghost use Rattle.boundary_arcs.specs.Views.{arcs_view};
ghost use Rattle.mesh_definitions.specs.Rings.{area_sum};
ghost use Rattle.plane_geom.specs.Segments.{joins};
ghost use Rattle.ring_builder.specs.Lists.{IsPart};
ghost use Rattle.ring_builder.specs.Parts.{part_segments};
ghost use Rattle.std.specs.Prelude.{◌≡◌, ◌≤◌, ◌<◌, ◌^◌, ◌+ℤ◌, ◌-ℤ◌, ◌*ℤ◌, All, flat_map, length, unsigned_abs};

use crate::Part;
use boundary_arcs::Arcs;
use plane_geom::Point;

fn width(a: Point, b: Point) -> i128
    ensures value { result ≡ b.x -ℤ a.x }
    ensures small { unsigned_abs result ≤ 2 ^ 33 }
{
    i128::from(b.x) - i128::from(a.x)
}

fn height(a: Point, b: Point) -> i128
    ensures value { result ≡ b.y +ℤ a.y }
    ensures small { unsigned_abs result ≤ 2 ^ 33 }
{
    i128::from(b.y) + i128::from(a.y)
}

/// Twice the area between a segment and the equator, positive where it runs eastwards north of it.
fn strip(a: Point, b: Point) -> i128
    ensures value { result ≡ (b.x -ℤ a.x) *ℤ (b.y +ℤ a.y) }
    ensures small { unsigned_abs result ≤ 2 ^ 66 }
{
    let across = width(a, b);
    let up = height(a, b);
    across * up
}

/// The area sum of the segments that join the points.
fn area_along(points: &[Point]) -> i128
    requires { length points.now ≤ 2 ^ 28 }
    ensures value { result ≡ area_sum (joins points.now) }
    ensures small { unsigned_abs result ≤ 2 ^ 94 }
{
    let mut sum: i128 = 0;
    for at in 1..points.len() {
        sum += strip(points[at - 1], points[at]);
    }
    sum
}

fn part_area(arcs: &Arcs, part: Part) -> i128
    requires { IsPart (arcs_view arcs.now).arcs part }
    ensures value { result ≡ area_sum (part_segments (arcs_view arcs.now).arcs part) }
    ensures small { unsigned_abs result ≤ 2 ^ 94 }
{
    let sum = area_along(arcs.arc(part.arc as usize).points.as_slice());
    if part.forward { sum } else { -sum }
}

/// The area sum of parts: positive where they run round clockwise.
pub(crate) fn area(arcs: &Arcs, parts: &[Part]) -> i128
    requires known { All (IsPart (arcs_view arcs.now).arcs) parts.now }
    requires few { length parts.now ≤ 2 ^ 27 }
    ensures { result ≡ area_sum (flat_map (part_segments (arcs_view arcs.now).arcs) parts.now) }
{
    let mut sum: i128 = 0;
    for part in parts {
        sum += part_area(arcs, *part);
    }
    sum
}
