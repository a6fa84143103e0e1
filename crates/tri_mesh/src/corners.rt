// The corners of triangles and their bands.
ghost use Rattle.std.specs.Prelude.{◌≡◌, ℕ, ◌+◌, ◌<◌, ◌≤◌, IfSome, is_some, cond, min, max, map, length, [], ◌∷◌};
ghost use Rattle.std.specs.List.{range_with_len};
ghost use Rattle.mesh_definitions.specs.Mesh.{corners, surveyed};
ghost use Rattle.mesh_definitions.specs.Pieces.{least_band, greatest_band, pieces_of};
ghost use Rattle.shoal_buffer.specs.Views.{charted_view};
ghost use Rattle.tri_mesh.specs.Fields.{field_in};
ghost use Rattle.tri_mesh.specs.Triangles.{each_corner, AreBands, piece_of};
ghost use Rattle.mesh_definitions.specs.Field.{node_band};
ghost use Rattle.depth_rounding.specs.Views.{levels_view};

use crate::Pieces;
use depth_grid::NodeId;
use depth_rounding::Levels;
use mesh_definitions::Tri;
use shoal_buffer::Charted;

// One for each corner of a triangle, clockwise.
#[derive(Clone, Copy)]
pub(crate) struct Corners<T> {
    pub first: T,
    pub second: T,
    pub third: T,
}

pub(crate) fn corners_of(tri: Tri) -> Corners<NodeId>
    requires row { tri.row ≤ 1024 }
    requires col { tri.col ≤ 1024 }
    ensures { each_corner result ≡ corners tri }
{
    let north_west = NodeId {
        row: tri.row,
        col: tri.col,
    };
    let north_east = NodeId {
        row: tri.row,
        col: tri.col + 1,
    };
    let south_west = NodeId {
        row: tri.row + 1,
        col: tri.col,
    };
    let south_east = NodeId {
        row: tri.row + 1,
        col: tri.col + 1,
    };
    if tri.upper {
        Corners {
            first: north_west,
            second: north_east,
            third: south_west,
        }
    } else {
        Corners {
            first: south_west,
            second: north_east,
            third: south_east,
        }
    }
}

// The band of a node, none without data.
pub(crate) fn band_of(node: NodeId, ch: &Charted, levels: &Levels) -> Option<u32>
    requires row { node.row < length (charted_view ch.now).grid.ys }
    requires col { node.col < length (charted_view ch.now).grid.xs }
    ensures value { result ≡ node_band (field_in ch.now levels.now) node }
    ensures small { IfSome result (λ b. b ≤ length (levels_view levels.now)) }
{
    match ch.c(node) {
        Some(c) => Some(levels.band(c)),
        None => None,
    }
}

// The bands of the corners, none where one has no data.
pub(crate) fn bands(tri: Tri, ch: &Charted, levels: &Levels) -> Option<Corners<u32>>
    requires row { tri.row + 1 < length (charted_view ch.now).grid.ys }
    requires col { tri.col + 1 < length (charted_view ch.now).grid.xs }
    ensures data { is_some result ≡ surveyed (field_in ch.now levels.now) tri }
    ensures bands { IfSome result (AreBands (field_in ch.now levels.now) tri) }
{
    let at = corners_of(tri);
    let Some(first) = band_of(at.first, ch, levels) else {
        return None;
    };
    let Some(second) = band_of(at.second, ch, levels) else {
        return None;
    };
    let Some(third) = band_of(at.third, ch, levels) else {
        return None;
    };
    Some(Corners {
        first,
        second,
        third,
    })
}

pub(crate) fn lesser(a: u32, b: u32) -> u32
    ensures { result ≡ min a b }
{
    if b < a { b } else { a }
}

pub(crate) fn greater(a: u32, b: u32) -> u32
    ensures { result ≡ max a b }
{
    if a < b { b } else { a }
}

// The least and the greatest of three bands.
pub(crate) fn least(bands: Corners<u32>) -> u32
    ensures { result ≡ min (min bands.first bands.second) bands.third }
{
    lesser(lesser(bands.first, bands.second), bands.third)
}

pub(crate) fn greatest(bands: Corners<u32>) -> u32
    ensures { result ≡ max (max bands.first bands.second) bands.third }
{
    greater(greater(bands.first, bands.second), bands.third)
}

/// The pieces of a triangle: one for each band from its least node's to its greatest node's, and one alone where a node
/// has no data.
pub fn pieces(tri: Tri, ch: &Charted, levels: &Levels) -> Pieces
    requires row { tri.row + 1 < length (charted_view ch.now).grid.ys }
    requires col { tri.col + 1 < length (charted_view ch.now).grid.xs }
    ensures surveyed { result.surveyed ≡ surveyed (field_in ch.now levels.now) tri }
    ensures first { result.first ≡ cond result.surveyed (least_band (field_in ch.now levels.now) tri) 0 }
    ensures exact { pieces_of (field_in ch.now levels.now) tri ≡ map (piece_of tri) (range_with_len result.first result.count) }
    ensures some { 1 ≤ result.count }
    ensures few { result.count ≤ 21 }
{
    match bands(tri, ch, levels) {
        Some(bands) => Pieces {
            surveyed: true,
            first: least(bands),
            count: greatest(bands) - least(bands) + 1,
        },
        None => Pieces {
            surveyed: false,
            first: 0,
            count: 1,
        },
    }
}
