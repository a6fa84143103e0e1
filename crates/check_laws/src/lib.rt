//! The chart of a grid and a sheet passes the check of cells: laws over the definitions alone. Each function's contract is a
//! law, and it does nothing.
#![tactic(auto)]

ghost use Rattle.check_laws.specs.Checks.{ChartsAreRight, ChartsAreUncrossed, ChartsHaveNoWrong, ChartsPass};
ghost use Rattle.check_laws.specs.Counts.{NoneBelowAt, OutlineSingleAt};

use mesh_counts_laws::{line_places, outline_counts};
use mesh_definitions::{Piece, Step, mesh_borders};
use mesh_ground_laws::closed_pieces;
use mesh_laws::piece_laws;
use mesh_lines_laws::{chords_are_apart, mesh_lines};
use plane_laws::{boundary_sums, count_parity, shares_of_sums, winding_numbers};
use plane_strips::lines_of_strips;
use tiling_laws::{edge_lines, truth_law};

/// At a rational point no piece of the mesh of a field counts below 0, and the outline of all pieces counts 0 or 1.
pub fn rational_counts()
    ensures none_below { NoneBelowAt }
    ensures outline { OutlineSingleAt }
{
    boundary_sums::<Step, Piece>();
    mesh_borders();
    closed_pieces();
    outline_counts();
    mesh_lines();
}

/// At every rational point one area of the chart of a grid and a sheet counts where some cover does, and none where none
/// does. So no strip of it has a wrong point.
pub fn charts_are_right()
    ensures right { ChartsAreRight }
    ensures no_wrong { ChartsHaveNoWrong }
{
    winding_numbers();
    count_parity();
    shares_of_sums::<Piece>();
    boundary_sums::<Step, Piece>();
    mesh_borders();
    piece_laws();
    truth_law();
    rational_counts();
}

/// Two lines of the chart of a grid and a sheet that have a common rational point strictly between two neighbouring heights
/// of ends are on one straight line. So no strip of it is crossed.
pub fn charts_are_uncrossed()
    ensures { ChartsAreUncrossed }
{
    winding_numbers();
    count_parity();
    shares_of_sums::<Piece>();
    boundary_sums::<Step, Piece>();
    mesh_borders();
    piece_laws();
    closed_pieces();
    chords_are_apart();
    mesh_lines();
    line_places();
    edge_lines();
    truth_law();
    lines_of_strips();
    rational_counts();
}

/// The chart of a grid and a sheet passes the check of cells: its verdict is that its areas tile what its covers cover, with
/// the number of its areas, or that it has over a million segments.
pub fn charts_pass()
    ensures { ChartsPass }
{
    charts_are_right();
    charts_are_uncrossed();
}
