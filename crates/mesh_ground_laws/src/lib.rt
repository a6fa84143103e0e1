//! The ground of a field: off the lines of its mesh it is of one class at each point, that of the piece that counts there. With
//! this the mesh of every field is sound. And its pieces are convex and count at points of their own alone. Each function's
//! contract is a law over the definitions alone, and it does nothing.
#![tactic(auto)]

ghost use Rattle.mesh_ground_laws.specs.ClosedPieces.{NoneBeyondSteps, PiecesAreConvex, PiecesCountInside};
ghost use Rattle.mesh_ground_laws.specs.Grounds.{FieldsAreSound, FieldsHaveOneClass, FieldsKeepGround};

use mesh_counts_laws::{line_places, outline_counts, piece_counts};
use mesh_definitions::{Piece, Step, mesh_borders};
use mesh_laws::piece_laws;
use mesh_lines_laws::{mesh_lines, mesh_nodes};
use plane_laws::boundary_sums;

/// Off the lines of the mesh of a field, the ground at a point is of one class, and a piece that counts there has it.
pub fn ground_laws()
    ensures counted { FieldsKeepGround }
    ensures one_class { FieldsHaveOneClass }
{
    piece_counts();
    boundary_sums::<Step, Piece>();
    mesh_borders();
}

/// The mesh of every field is sound.
pub fn fields_are_sound()
    ensures sound { FieldsAreSound }
{
    piece_laws();
    piece_counts();
    outline_counts();
    line_places();
    mesh_lines();
    mesh_nodes();
    ground_laws();
}

/// Each piece of the mesh of a field is convex, its outline runs clockwise, and it counts 0 at all points beyond the closed
/// piece.
pub fn closed_pieces()
    ensures convex { PiecesAreConvex }
    ensures beyond { NoneBeyondSteps }
    ensures inside { PiecesCountInside }
{
    piece_counts();
    boundary_sums::<Step, Piece>();
    mesh_borders();
}
