//! The chart of the overview of a grid states no more water than the grid itself, at each of its nodes: a law over the
//! definitions alone. The function's contract is the law, and it does nothing.
#![tactic(auto)]

ghost use Rattle.overview_laws.specs.StaysShoal.{OverviewsStayShoal};

use chart_definitions::area_ranges;
use mesh_counts_laws::piece_counts;
use mesh_definitions::{Piece, Step, mesh_borders, mesh_counts};
use mesh_laws::piece_laws;
use overview_grid::coarse_grids;
use plane_laws::{boundary_sums, count_parity, winding_numbers};

/// In the chart of the overview of a grid and a sheet no depth area that has a node of the fine grid inside it or on one of
/// its segments tells more water than the node has, and none has a node without data; and each sounding stands at a node of
/// the fine grid with data and is no deeper than any node of its neighbourhood.
pub fn overviews_stay_shoal()
    ensures { OverviewsStayShoal }
{
    boundary_sums::<Step, Piece>();
    winding_numbers();
    count_parity();
    mesh_borders();
    mesh_counts();
    piece_laws();
    piece_counts();
    area_ranges();
    coarse_grids();
}
