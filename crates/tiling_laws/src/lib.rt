//! The areas of a chart tile its coverage: laws over the definitions alone, of any mesh that keeps the laws of meshes.
//! Each function's contract is a law, and it does nothing.
#![tactic(auto)]

ghost use Rattle.tiling_laws.specs.Depths.{AreasHaveKinds, AreasNoDeeper, SoundingsNoDeeper};
ghost use Rattle.tiling_laws.specs.EdgeLines.{AreasOnEdges, EdgesAreLines, EdgesHaveSegments, TracesPart};
ghost use Rattle.tiling_laws.specs.SoundEdges.{EdgesOnAreas, EdgesPartAreas, NamedBySides, SegmentsOnce};
ghost use Rattle.tiling_laws.specs.Tiling.{TilingLaw};
ghost use Rattle.tiling_laws.specs.Truth.{GridsHaveFields, TruthFromFields, TruthFromMesh};

use chart_definitions::area_ranges;
use mesh_definitions::{Piece, mesh_counts};
use plane_laws::{count_parity, line_sides, shares_of_sums, winding_numbers};

/// Each edge of a chart has a segment, the edges lie exactly on the drawn lines of its mesh, its areas' segments on its
/// edges, and what lies on the two sides of an edge differs.
pub fn edge_lines()
    ensures some { EdgesHaveSegments }
    ensures lines { EdgesAreLines }
    ensures areas { AreasOnEdges }
    ensures differ { TracesPart }
{
    line_sides();
}

/// Each point of the coverage that is on no edge is inside exactly one area, which has the kind and range of the one
/// class of its ground; and no point outside the coverage is on an edge or inside an area.
pub fn tiling_law()
    ensures { TilingLaw }
{
    winding_numbers();
    count_parity();
    shares_of_sums::<Piece>();
    mesh_counts();
    edge_lines();
}

/// The areas of a chart are depth areas and unsurveyed areas, and neither these nor its soundings tell more water than
/// the nodes have at which they stand.
pub fn depth_laws()
    ensures kinds { AreasHaveKinds }
    ensures soundings { SoundingsNoDeeper }
    ensures areas { AreasNoDeeper }
{
    winding_numbers();
    count_parity();
    mesh_counts();
    area_ranges();
}

/// No segment stands in two edges of a chart, or twice in one; an edge is named by the areas on its two sides alone, once
/// by each and in opposite directions; each point on it is on an area; and it parts two areas that differ where it is off
/// the outline of the coverage, and is the border of one area where it runs along it.
pub fn sound_edges()
    ensures once { SegmentsOnce }
    ensures named { NamedBySides }
    ensures on_areas { EdgesOnAreas }
    ensures parting { EdgesPartAreas }
{
    line_sides();
}

/// The chart of a grid and a sheet tells the truth, and its edges are sound, where its mesh keeps the laws of meshes.
pub fn truth_law()
    ensures from_mesh { TruthFromMesh }
    ensures fields { GridsHaveFields }
    ensures from_fields { TruthFromFields }
{
    edge_lines();
    tiling_law();
    depth_laws();
    sound_edges();
}
