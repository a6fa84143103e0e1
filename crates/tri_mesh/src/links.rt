// Links and the parts that levels cut them into.
ghost use Rattle.std.specs.Prelude.{◌≡◌, ◌<◌, ◌≤◌, is_some, true, length};
ghost use Rattle.std.specs.List.{range_with_len};
ghost use Rattle.mesh_definitions.specs.Cuts.{crossing};
ghost use Rattle.mesh_definitions.specs.Field.{band_at};
ghost use Rattle.mesh_definitions.specs.Mesh.{first, second};
ghost use Rattle.mesh_definitions.specs.Pieces.{part_bands, part_ends};
ghost use Rattle.depth_grid.specs.Views.{grid_view};
ghost use Rattle.shoal_buffer.specs.Views.{charted_view};
ghost use Rattle.tri_mesh.specs.Fields.{field_in, upwards};
ghost use Rattle.tri_mesh.specs.Legs.{spot, part_of};

use crate::chords::{Leg, crossing_on};
use crate::corners::{band_of, greater, lesser};
use crate::crossing_rule::is_deeper;
use crate::{LinkParts, MeshEdge};
use depth_grid::{Grid, NodeId};
use depth_rounding::Levels;
use mesh_definitions::{Link, Way};
use plane_geom::{Point, Seg};
use shoal_buffer::Charted;

/// The two nodes of a link, in its own direction.
pub fn ends_of(link: Link) -> MeshEdge
    requires first_row { (first link).row ≤ 1024 }
    requires first_col { (first link).col ≤ 1024 }
    requires second_row { (second link).row ≤ 1024 }
    requires second_col { (second link).col ≤ 1024 }
    ensures a { result.a ≡ first link }
    ensures b { result.b ≡ second link }
{
    let Link { way, row, col } = link;
    match way {
        Way::Across => MeshEdge {
            a: NodeId { row, col },
            b: NodeId { row, col: col + 1 },
        },
        Way::Down => MeshEdge {
            a: NodeId { row, col },
            b: NodeId { row: row + 1, col },
        },
        Way::Slant => MeshEdge {
            a: NodeId { row: row + 1, col },
            b: NodeId { row, col: col + 1 },
        },
    }
}

/// The bands of the parts that a link of the mesh is cut into: so many from the first on. One part, by 0, where an end
/// has no data.
pub fn parts(link: Link, ch: &Charted, levels: &Levels) -> LinkParts
    requires first_row { (first link).row < length (charted_view ch.now).grid.ys }
    requires first_col { (first link).col < length (charted_view ch.now).grid.xs }
    requires second_row { (second link).row < length (charted_view ch.now).grid.ys }
    requires second_col { (second link).col < length (charted_view ch.now).grid.xs }
    ensures exact { part_bands (field_in ch.now levels.now) link ≡ range_with_len result.first result.count }
    ensures some { 1 ≤ result.count }
    ensures few { result.count ≤ 21 }
{
    let ends = ends_of(link);
    let Some(a) = band_of(ends.a, ch, levels) else {
        return LinkParts { first: 0, count: 1 };
    };
    let Some(b) = band_of(ends.b, ch, levels) else {
        return LinkParts { first: 0, count: 1 };
    };
    let first = lesser(a, b);
    LinkParts {
        first,
        count: greater(a, b) - first + 1,
    }
}

// Where a node stands.
pub(crate) fn place_of(grid: &Grid, node: NodeId) -> Point
    requires row { node.row < length (grid_view grid.now).ys }
    requires col { node.col < length (grid_view grid.now).xs }
    ensures { result ≡ spot (grid_view grid.now) node }
{
    Point {
        x: grid.x(node.col),
        y: grid.y(node.row),
    }
}

// Where level k crosses a leg whose deeper node has the band `deepest`: at the shoaler node up to its band, and at the
// deeper one above its own.
fn crossing_at(leg: Leg, deepest: u32, k: u32, ch: &Charted, levels: &Levels) -> Point
    requires u_row { leg.u.row < length (charted_view ch.now).grid.ys }
    requires u_col { leg.u.col < length (charted_view ch.now).grid.xs }
    requires v_row { leg.v.row < length (charted_view ch.now).grid.ys }
    requires v_col { leg.v.col < length (charted_view ch.now).grid.xs }
    requires u_data { is_some ((field_in ch.now levels.now).depth leg.u) ≡ true }
    requires v_data { is_some ((field_in ch.now levels.now).depth leg.v) ≡ true }
    requires u_band { band_at (field_in ch.now levels.now) leg.u ≡ leg.band }
    requires v_band { band_at (field_in ch.now levels.now) leg.v ≡ deepest }
    ensures { result ≡ crossing (field_in ch.now levels.now) (upwards leg.u leg.v) k }
{
    if k <= leg.band {
        return place_of(ch.grid(), leg.u);
    }
    if deepest < k {
        return place_of(ch.grid(), leg.v);
    }
    crossing_on(leg, k, ch, levels)
}

// The part of a leg in a band, from the shoaler end to the deeper one.
fn part_up(leg: Leg, deepest: u32, band: u32, ch: &Charted, levels: &Levels) -> Seg
    requires u_row { leg.u.row < length (charted_view ch.now).grid.ys }
    requires u_col { leg.u.col < length (charted_view ch.now).grid.xs }
    requires v_row { leg.v.row < length (charted_view ch.now).grid.ys }
    requires v_col { leg.v.col < length (charted_view ch.now).grid.xs }
    requires u_data { is_some ((field_in ch.now levels.now).depth leg.u) ≡ true }
    requires v_data { is_some ((field_in ch.now levels.now).depth leg.v) ≡ true }
    requires u_band { band_at (field_in ch.now levels.now) leg.u ≡ leg.band }
    requires v_band { band_at (field_in ch.now levels.now) leg.v ≡ deepest }
    ensures { result ≡ part_of (field_in ch.now levels.now) (upwards leg.u leg.v) band }
{
    Seg {
        a: crossing_at(leg, deepest, band, ch, levels),
        b: crossing_at(leg, deepest, band.saturating_add(1), ch, levels),
    }
}

/// Where the part of a link in a band lies, from its first node to its second. In bands without a part it is a point, the
/// shoaler or the deeper node; where a node has no data it is the whole link in any band.
pub fn part(link: Link, band: u32, ch: &Charted, levels: &Levels) -> Seg
    requires first_row { (first link).row < length (charted_view ch.now).grid.ys }
    requires first_col { (first link).col < length (charted_view ch.now).grid.xs }
    requires second_row { (second link).row < length (charted_view ch.now).grid.ys }
    requires second_col { (second link).col < length (charted_view ch.now).grid.xs }
    ensures { result ≡ part_ends (field_in ch.now levels.now) link band }
{
    let MeshEdge { a, b } = ends_of(link);
    let (Some(a_band), Some(b_band)) = (band_of(a, ch, levels), band_of(b, ch, levels)) else {
        return Seg {
            a: place_of(ch.grid(), a),
            b: place_of(ch.grid(), b),
        };
    };
    if is_deeper(ch, a, b) {
        let up = part_up(
            Leg {
                u: b,
                v: a,
                band: b_band,
            },
            a_band,
            band,
            ch,
            levels,
        );
        Seg { a: up.b, b: up.a }
    } else {
        part_up(
            Leg {
                u: a,
                v: b,
                band: a_band,
            },
            b_band,
            band,
            ch,
            levels,
        )
    }
}
