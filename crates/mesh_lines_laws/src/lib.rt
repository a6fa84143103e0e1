//! Where the sub-segments of the mesh of a field lie, and what lies at its nodes: laws over the definitions alone. Each
//! function's contract is a law, and it does nothing.
#![tactic(auto)]

ghost use Rattle.mesh_lines_laws.specs.Chords.{ChordsApart, ChordsNest};
ghost use Rattle.mesh_lines_laws.specs.MeshLines.{FieldsKeepLines, FieldsKeepNodes, FieldsKeepOutline};

use mesh_definitions::{Piece, Step, mesh_borders};
use plane_laws::boundary_sums;

/// In the mesh of a field each sub-segment joins two different points, no two join the same two, and one has nothing on one
/// of its sides exactly where it runs along the outline of the coverage.
pub fn mesh_lines()
    ensures lines { FieldsKeepLines }
    ensures outline { FieldsKeepOutline }
{}

/// In the mesh of a field a piece that has a node with data on its outline, or counts there, is unsurveyed or of the
/// node's band.
pub fn mesh_nodes()
    ensures nodes { FieldsKeepNodes }
{
    boundary_sums::<Step, Piece>();
    mesh_borders();
}

/// In a triangle of a field the chord of a deeper level lies strictly on the deep side of that of a shoaler one, so the
/// chords of two levels share no point, not even an end.
pub fn chords_are_apart()
    ensures nested { ChordsNest }
    ensures apart { ChordsApart }
{}
