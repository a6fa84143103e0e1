// Faces, the edges between them, and what both belong to.
ghost use Rattle.boundary_arcs.specs.Views.{arcs_view};
ghost use Rattle.built_parts.specs.Contours.{HasBands};
ghost use Rattle.depth_rounding.specs.Views.{levels_view};
ghost use Rattle.face_fill.specs.Views.{faces_view};
ghost use Rattle.std.specs.Prelude.{◌≡◌, ◌<◌, ◌≤◌, ◌^◌, All, length};

use boundary_arcs::Arcs;
use depth_rounding::Levels;
use face_fill::Faces;

/// The faces of a grid and the edges between them, which areas and contours are made of. Both number the faces alike; the
/// faces' bands are those between the levels, and their blocks are numbered below `blocks`, which is at most 2^20.
#[derive(Clone, Copy)]
pub(crate) struct Topology<'a> {
    pub arcs: &'a Arcs,
    pub faces: &'a Faces,
    pub levels: &'a Levels,
    pub blocks: u32,
    pub ghost few_edges: { length (arcs_view arcs.now).arcs ≤ 2 ^ 27 },
    pub ghost alike: { (arcs_view arcs.now).faces ≡ length (faces_view faces.now).classes },
    pub ghost bands: { HasBands (length (levels_view levels.now)) (faces_view faces.now) },
    pub ghost below: { All (λ block. block < blocks) (faces_view faces.now).blocks },
    pub ghost few_blocks: { blocks ≤ 2 ^ 20 },
}
