// Chords of triangles.
ghost use Rattle.std.specs.Prelude.{◌≡◌, ◌+◌, ◌<◌, ◌≤◌, nat_lt, nat_le, ◌&&◌, cond, Some, None, is_some, length, true};
ghost use Rattle.mesh_definitions.specs.Cuts.{crossing};
ghost use Rattle.mesh_definitions.specs.Field.{band_at};
ghost use Rattle.mesh_definitions.specs.Mesh.{surveyed};
ghost use Rattle.mesh_definitions.specs.Pieces.{least_band, greatest_band, chord_ends};
ghost use Rattle.shoal_buffer.specs.Views.{charted_view};
ghost use Rattle.tri_mesh.specs.Fields.{field_in, upwards};
ghost use Rattle.tri_mesh.specs.Legs.{along_line, entering_leg, leaving_leg};
ghost use Rattle.tri_mesh.specs.Triangles.{AreBands};

use crate::corners::{Corners, bands, corners_of, greatest, least};
use crate::crossing_rule::{slots_between, steps_of_line};
use depth_grid::NodeId;
use depth_rounding::Levels;
use mesh_definitions::Tri;
use plane_geom::{Point, Seg};
use shoal_buffer::Charted;

// The way from one coordinate to another in equal steps.
#[derive(Clone, Copy)]
struct CoordinateSteps {
    from: i32,
    to: i32,
    steps: u32,
}

// The coordinate after so many of the steps.
fn along(line: CoordinateSteps, slot: u32) -> i32
    requires some { 0 < line.steps }
    requires within { slot ≤ line.steps }
    ensures { result ≡ along_line line slot }
{
    let far = line.to.abs_diff(line.from) / line.steps * slot;
    if line.from <= line.to {
        line.from.saturating_add_unsigned(far)
    } else {
        line.from.saturating_sub_unsigned(far)
    }
}

// Two nodes of a leg of a triangle, the shoaler one first, and the shoaler one's band.
#[derive(Clone, Copy)]
pub(crate) struct Leg {
    pub u: NodeId,
    pub v: NodeId,
    pub band: u32,
}

// Where level k crosses from a leg's shoaler node to its deeper one.
pub(crate) fn crossing_on(leg: Leg, k: u32, ch: &Charted, levels: &Levels) -> Point
    requires u_row { leg.u.row < length (charted_view ch.now).grid.ys }
    requires u_col { leg.u.col < length (charted_view ch.now).grid.xs }
    requires v_row { leg.v.row < length (charted_view ch.now).grid.ys }
    requires v_col { leg.v.col < length (charted_view ch.now).grid.xs }
    requires u_data { is_some ((field_in ch.now levels.now).depth leg.u) ≡ true }
    requires v_data { is_some ((field_in ch.now levels.now).depth leg.v) ≡ true }
    requires u_band { band_at (field_in ch.now levels.now) leg.u ≡ leg.band }
    requires v_band { k ≤ band_at (field_in ch.now levels.now) leg.v }
    requires above { leg.band < k }
    ensures { result ≡ crossing (field_in ch.now levels.now) (upwards leg.u leg.v) k }
{
    let grid = ch.grid();
    let mut into = [0; 20];
    slots_between(leg.u, leg.v, ch, levels, &mut into);
    let steps = steps_of_line(ch, leg.u, leg.v);
    let slot = into[(k - leg.band - 1) as usize];
    Point {
        x: along(
            CoordinateSteps {
                from: grid.x(leg.u.col),
                to: grid.x(leg.v.col),
                steps,
            },
            slot,
        ),
        y: along(
            CoordinateSteps {
                from: grid.y(leg.u.row),
                to: grid.y(leg.v.row),
                steps,
            },
            slot,
        ),
    }
}

// The leg on which the walk round a triangle crosses level k going deeper. A level that crosses a triangle crosses one leg
// going deeper and one coming back, so where that is neither of the first two legs it is the third.
fn entering(at: Corners<NodeId>, bands: Corners<u32>, k: u32) -> Leg
    ensures { result ≡ entering_leg at bands k }
{
    if bands.first < k && k <= bands.second {
        Leg {
            u: at.first,
            v: at.second,
            band: bands.first,
        }
    } else if bands.second < k && k <= bands.third {
        Leg {
            u: at.second,
            v: at.third,
            band: bands.second,
        }
    } else {
        Leg {
            u: at.third,
            v: at.first,
            band: bands.third,
        }
    }
}

// The leg on which it comes back, likewise.
fn leaving(at: Corners<NodeId>, bands: Corners<u32>, k: u32) -> Leg
    ensures { result ≡ leaving_leg at bands k }
{
    if k <= bands.first && bands.second < k {
        Leg {
            u: at.second,
            v: at.first,
            band: bands.second,
        }
    } else if k <= bands.second && bands.third < k {
        Leg {
            u: at.third,
            v: at.second,
            band: bands.third,
        }
    } else {
        Leg {
            u: at.first,
            v: at.third,
            band: bands.first,
        }
    }
}

// The chord of a level that crosses a surveyed triangle.
pub(crate) fn chord_of(tri: Tri, bands: Corners<u32>, k: u32, ch: &Charted, levels: &Levels) -> Seg
    requires row { tri.row + 1 < length (charted_view ch.now).grid.ys }
    requires col { tri.col + 1 < length (charted_view ch.now).grid.xs }
    requires known { surveyed (field_in ch.now levels.now) tri ≡ true }
    requires bands { AreBands (field_in ch.now levels.now) tri bands }
    requires above { least_band (field_in ch.now levels.now) tri < k }
    requires most { k ≤ greatest_band (field_in ch.now levels.now) tri }
    ensures { result ≡ chord_ends (field_in ch.now levels.now) tri k }
{
    let at = corners_of(tri);
    let back = leaving(at, bands, k);
    let deeper = entering(at, bands, k);
    Seg {
        a: crossing_on(back, k, ch, levels),
        b: crossing_on(deeper, k, ch, levels),
    }
}

/// The chord of level `k` in a triangle, with the deep side on its right. `None` exactly where the triangle is unsurveyed
/// or `k` isn't above its least band and at most its greatest.
pub fn chord(tri: Tri, k: u32, ch: &Charted, levels: &Levels) -> Option<Seg>
    requires row { tri.row + 1 < length (charted_view ch.now).grid.ys }
    requires col { tri.col + 1 < length (charted_view ch.now).grid.xs }
    ensures { result ≡ cond (surveyed (field_in ch.now levels.now) tri && (nat_lt (least_band (field_in ch.now levels.now) tri) k && nat_le k (greatest_band (field_in ch.now levels.now) tri))) (Some (chord_ends (field_in ch.now levels.now) tri k)) None }
{
    let Some(bands) = bands(tri, ch, levels) else {
        return None;
    };
    if k <= least(bands) || greatest(bands) < k {
        return None;
    }
    Some(chord_of(tri, bands, k, ch, levels))
}
