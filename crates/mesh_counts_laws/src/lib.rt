//! Signed counts of the mesh of a field. Each function's contract is a law over the definitions alone, and it does nothing.
#![tactic(auto)]

ghost use Rattle.mesh_counts_laws.specs.Counts.{LinesInside, NoneBeyond, OneWithin, OutlineIsCoverage, PiecesFromZero, PiecesInTriangles};
ghost use Rattle.mesh_counts_laws.specs.Counts.{PiecesCountApart, PiecesCountOnce, SetsCountOnce};

use mesh_definitions::{Piece, Step, mesh_borders, mesh_counts};
use mesh_laws::piece_laws;
use plane_laws::{boundary_sums, shares_of_sums};

/// The lines of a mesh lie in the coverage of its field.
pub fn line_places()
    ensures inside { LinesInside }
{}

/// No piece of the mesh of a field counts below 0, since its outline is convex and walked clockwise; and it counts 0 at all
/// points beyond its triangle.
pub fn piece_counts()
    ensures from_zero { PiecesFromZero }
    ensures in_triangles { PiecesInTriangles }
{
    boundary_sums::<Step, Piece>();
    mesh_borders();
}

/// The outline of all pieces counts 1 in the coverage of the field, its northern and eastern sides left out, and 0 at all
/// other points.
pub fn outline_counts()
    ensures exact { OutlineIsCoverage }
    ensures beyond { NoneBeyond }
    ensures within { OneWithin }
{
    boundary_sums::<Step, Piece>();
    mesh_borders();
}

/// Each piece of the mesh of a field counts 0 or 1 at every point, and so does the boundary of each set of pieces, such as
/// a face; no two pieces count at one point.
pub fn counts_are_single()
    ensures pieces { PiecesCountOnce }
    ensures sets { SetsCountOnce }
    ensures apart { PiecesCountApart }
{
    piece_laws();
    piece_counts();
    outline_counts();
    mesh_borders();
    mesh_counts();
    shares_of_sums::<Piece>();
}
