//! For every point, what `query` says of the chart of a grid and a sheet is word for word what `ground` says of the grid and the
//! sheet. Each function's contract is a law over the definitions alone, and it does nothing.
#![tactic(auto)]

ghost use Rattle.point_laws.specs.Alike.{ChartAndGroundAgree, GroundIsOne};
ghost use Rattle.point_laws.specs.Answered.{ChartsAnswerAsGround};
ghost use Rattle.point_laws.specs.Lines.{AlikeDrawAlike, DrawnAreLines};
ghost use Rattle.point_laws.specs.Once.{GeneralisedOnce, NeedPartsOnce};
ghost use Rattle.point_laws.specs.Places.{ChartsPlace};

use mesh_ground_laws::{fields_are_sound, ground_laws};
use mesh_laws::piece_laws;
use tiling_laws::{edge_lines, sound_edges, truth_law};

/// The opened and the charted depths at the nodes of a grid are settled by the disc and the steps. And two cells of a field
/// that are in one block by need are in one however the blocks are found and numbered.
pub fn same_blocks()
    ensures generalised { GeneralisedOnce }
    ensures blocks { NeedPartsOnce }
{}

/// A point lies on a drawn link or a chord of a field just where it lies on a drawn sub-segment of the field's mesh.
pub fn drawn_lines()
    ensures lines { DrawnAreLines }
{}

/// Two numberings of blocks that part the cells of a field alike draw the same.
fn drawn_alike()
    ensures alike { AlikeDrawAlike }
{}

/// Where a chart of a grid and a sheet tells the truth and has sound edges, it answers Edge for the points on the drawn
/// lines, Outside for those beyond the coverage, and for any other point the one area that tells the class of its ground.
pub fn points_are_placed()
    ensures { ChartsPlace }
{
    piece_laws();
    edge_lines();
    sound_edges();
}

/// A grid and a sheet have at most one answer at each point.
pub fn ground_is_one()
    ensures one { GroundIsOne }
{
    same_blocks();
    drawn_lines();
    drawn_alike();
    ground_laws();
    truth_law();
}

/// What a look-up finds at a point of the chart of a grid and a sheet is what the grid and the sheet have there: Edge where
/// they say Edge, Outside where they say Outside, and else the one area that tells their depths, or that none are known.
fn chart_and_ground_agree()
    ensures agree { ChartAndGroundAgree }
{
    points_are_placed();
    same_blocks();
    drawn_lines();
    drawn_alike();
    ground_laws();
    fields_are_sound();
    truth_law();
}

/// A grid and a sheet with a chart have one answer at every point, and `query` says of the chart word for word what `ground`
/// says of that answer.
pub fn answers_agree()
    ensures { ChartsAnswerAsGround }
{
    points_are_placed();
    ground_is_one();
    chart_and_ground_agree();
    drawn_lines();
    fields_are_sound();
    truth_law();
}
