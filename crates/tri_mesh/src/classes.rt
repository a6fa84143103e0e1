// The class that a triangle gives to its points.
ghost use Rattle.std.specs.Prelude.{◌≡◌, ◌↔◌, ◌+◌, ◌<◌, ◌≤◌, IfSome, None, cond, int_lt, pos, length};
ghost use Rattle.mesh_definitions.specs.Ground.{Gives, chords};
ghost use Rattle.plane_geom.specs.Geom.{OnSome, cross_of};
ghost use Rattle.shoal_buffer.specs.Views.{charted_view};
ghost use Rattle.tri_mesh.specs.Fields.{field_in};

use crate::chords::chord_of;
use crate::corners::{bands, greatest, least};
use depth_rounding::Levels;
use mesh_definitions::{Class, Tri};
use plane_geom::{Point, Seg, cross, on_segment};
use shoal_buffer::Charted;

// 1 where a point is strictly right of a segment, else 0.
fn right_of(s: Seg, p: Point) -> u32
    ensures value { result ≡ cond (int_lt (cross_of s.a s.b p) (pos 0)) 1 0 }
    ensures small { result ≤ 1 }
{
    if cross(s.a, s.b, p) < 0 { 1 } else { 0 }
}

// The class that a triangle gives to a point of it, none on one of its chords.
pub(crate) fn class_in(tri: Tri, p: Point, ch: &Charted, levels: &Levels) -> Option<Class>
    requires row { tri.row + 1 < length (charted_view ch.now).grid.ys }
    requires col { tri.col + 1 < length (charted_view ch.now).grid.xs }
    ensures none { result ≡ None ↔ OnSome (chords (field_in ch.now levels.now) tri) p }
    ensures gives { IfSome result (Gives (field_in ch.now levels.now) tri p) }
{
    let Some(bands) = bands(tri, ch, levels) else {
        return Some(Class::Unsurveyed);
    };
    let first = least(bands);
    let mut band = first;
    for k in first + 1..greatest(bands) + 1 {
        let s = chord_of(tri, bands, k, ch, levels);
        if on_segment(s, p) {
            return None;
        }
        band += right_of(s, p);
    }
    Some(Class::Band(band))
}
