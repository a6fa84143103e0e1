//! Exterior rings: each piece of a mesh has a positive area sum, so each face, each block and each area of a chart has a
//! ring that runs clockwise. Laws over the definitions alone: each function's contract is a law, and it does nothing.
#![tactic(auto)]

ghost use Rattle.exterior_laws.specs.Begins.{AreasBeginWithExteriors};
ghost use Rattle.exterior_laws.specs.Exterior.{PiecesHaveArea, SetsHaveArea, SomeRingIsExterior};

use mesh_definitions::{Piece, Step, mesh_borders, mesh_counts};
use mesh_ground_laws::closed_pieces;
use mesh_laws::piece_laws;
use mesh_lines_laws::mesh_lines;
use plane_laws::boundary_sums;
use tiling_laws::truth_law;

/// The outline of each piece of the mesh of a field has a positive area sum: no step of it has the piece on its left, and
/// parts of two legs of a triangle don't lie on one line. The boundary of a set of pieces has the sum of theirs, so where
/// rings have that boundary as their segments, each once, one of them at least is exterior.
pub fn exterior_rings()
    ensures pieces { PiecesHaveArea }
    ensures sets { SetsHaveArea }
    ensures rings { SomeRingIsExterior }
{
    boundary_sums::<Step, Piece>();
    mesh_borders();
    mesh_counts();
    piece_laws();
    mesh_lines();
    closed_pieces();
}

/// In the chart of a grid and a sheet the pointers of each area begin with those of an exterior ring.
pub fn areas_begin_with_exteriors()
    ensures begins { AreasBeginWithExteriors }
{
    exterior_rings();
    truth_law();
}
