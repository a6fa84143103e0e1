// Each command over a shelf and a sink.
ghost use Rattle.std.specs.Prelude.{Some};
ghost use Rattle.chart_cli.specs.Runs.{IsRunOf, devices};
ghost use Rattle.chart_cli.specs.Views.{node_view, origin_view, revision_view, sources_view};
ghost use Rattle.chart_cli.specs.Words.{ask as ask_of, check as check_of, ground as ground_of, make as make_of, node as node_of, revise as revise_of};

use crate::Status;
use crate::cell_answers::{cell_answer, revised_cell_answer};
use crate::cell_lines::Question;
use crate::endings::{finish, tell};
use crate::line_answers::{chart_lines, ground_lines, node_lines, verdict_lines};
use crate::words::{NodeWords, OriginWords, RevisionWords, SourceWords};
use chart_dev::{Shelf, Sink};
use overview_grid::coarse_grids;
use overview_laws::overviews_stay_shoal;
use plane_geom::Point;
use std::alloc::Global;

/// Says where a node of a grid lies and how deep it is.
pub(crate) fn node<S: Shelf, K: Sink>(
    alloc: Global,
    node: NodeWords<'_>,
    shelf: &mut S,
    out: &mut K,
) -> Status
    ensures { IsRunOf (Some (node_of (node_view node.entry))) result (devices (S.told shelf.old) (S.faults shelf.old) (K.taken out.old) (K.faults out.old)) (devices (S.told shelf.new) (S.faults shelf.new) (K.taken out.new) (K.faults out.new)) }
{
    let lines = node_lines(alloc, shelf, node);
    tell(out, lines)
}

/// Says what lies at a point by a grid and a sheet.
pub(crate) fn ground<S: Shelf, K: Sink>(
    alloc: Global,
    names: SourceWords<'_>,
    p: Point,
    shelf: &mut S,
    out: &mut K,
) -> Status
    ensures { IsRunOf (Some (ground_of (sources_view names.entry) p)) result (devices (S.told shelf.old) (S.faults shelf.old) (K.taken out.old) (K.faults out.old)) (devices (S.told shelf.new) (S.faults shelf.new) (K.taken out.new) (K.faults out.new)) }
{
    let lines = ground_lines(alloc, shelf, names, p);
    tell(out, lines)
}

/// Answers a question about the chart of a cell.
pub(crate) fn ask<S: Shelf, K: Sink>(
    alloc: Global,
    cell: &str,
    question: Question,
    shelf: &mut S,
    out: &mut K,
) -> Status
    ensures { IsRunOf (Some (ask_of cell.now question)) result (devices (S.told shelf.old) (S.faults shelf.old) (K.taken out.old) (K.faults out.old)) (devices (S.told shelf.new) (S.faults shelf.new) (K.taken out.new) (K.faults out.new)) }
{
    let lines = chart_lines(alloc, shelf, cell, question);
    tell(out, lines)
}

/// Says whether the areas of a cell tile what it covers.
pub(crate) fn check<S: Shelf, K: Sink>(
    alloc: Global,
    cell: &str,
    shelf: &mut S,
    out: &mut K,
) -> Status
    ensures { IsRunOf (Some (check_of cell.now)) result (devices (S.told shelf.old) (S.faults shelf.old) (K.taken out.old) (K.faults out.old)) (devices (S.told shelf.new) (S.faults shelf.new) (K.taken out.new) (K.faults out.new)) }
{
    let lines = verdict_lines(alloc, shelf, cell);
    tell(out, lines)
}

/// Makes a cell under a name; that of an overview states no more water than its fine grid. The whole cell and its line are
/// made before anything is stored, so that whatever stands under the name stays where no cell can be made.
pub(crate) fn make<S: Shelf, K: Sink>(
    alloc: Global,
    origin: OriginWords<'_>,
    cell: &str,
    shelf: &mut S,
    out: &mut K,
) -> Status
    ensures { IsRunOf (Some (make_of (origin_view origin.entry) cell.now)) result (devices (S.told shelf.old) (S.faults shelf.old) (K.taken out.old) (K.faults out.old)) (devices (S.told shelf.new) (S.faults shelf.new) (K.taken out.new) (K.faults out.new)) }
{
    coarse_grids();
    overviews_stay_shoal();
    let answer = cell_answer(alloc, shelf, origin);
    finish(shelf, out, cell, answer)
}

/// Makes the cell that an update makes of a cell, under a name. As with `make`, all of it is made before anything is stored.
pub(crate) fn revise<S: Shelf, K: Sink>(
    alloc: Global,
    names: RevisionWords<'_>,
    cell: &str,
    shelf: &mut S,
    out: &mut K,
) -> Status
    ensures { IsRunOf (Some (revise_of (revision_view names.entry) cell.now)) result (devices (S.told shelf.old) (S.faults shelf.old) (K.taken out.old) (K.faults out.old)) (devices (S.told shelf.new) (S.faults shelf.new) (K.taken out.new) (K.faults out.new)) }
{
    let answer = revised_cell_answer(alloc, shelf, names);
    finish(shelf, out, cell, answer)
}
