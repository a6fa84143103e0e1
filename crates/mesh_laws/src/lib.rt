//! Laws of the mesh of a field and of its faces. Each function's contract is a law over the definitions alone, and it does
//! nothing.
#![tactic(auto)]

ghost use Rattle.mesh_laws.specs.FaceLaws.{FacesBalance, DrawnParts, FacesHaveKinds};
ghost use Rattle.mesh_laws.specs.PieceLaws.{PiecesOnce, PiecesClosed};

use mesh_definitions::{Piece, Step, mesh_borders};
use plane_laws::boundary_sums;

/// The pieces of the mesh of a field stand once, each side of a sub-segment is one of them or beyond the border, and
/// the outline of a piece is closed: as many of its steps begin at a point as end there.
pub fn piece_laws()
    ensures once { PiecesOnce }
    ensures closed { PiecesClosed }
{
    boundary_sums::<Step, Piece>();
    mesh_borders();
}

/// In any mesh a sub-segment is drawn exactly where the numbers of the faces on its sides differ or one side is missing,
/// a face has one kind, and where the outlines of pieces are closed, those of faces are, of drawn sub-segments alone.
pub fn face_laws()
    ensures balance { FacesBalance }
    ensures apart { DrawnParts }
    ensures one_kind { FacesHaveKinds }
{
    boundary_sums::<Step, Piece>();
    mesh_borders();
}
