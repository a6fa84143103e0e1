// The lines that answer a command which stores nothing.
ghost use Rattle.std.specs.Prelude.{◌≡◌, ◌⊎◌, ◌≤◌, Some, IfOk, IfSome, IsErrOf};
ghost use Rattle.chart_model.specs.Tally.{IsMeasured};
ghost use Rattle.chart_dev.specs.Faults.{Rose};
ghost use Rattle.chart_cli.specs.Answers.{due_of, judges};
ghost use Rattle.chart_cli.specs.Ends.{IsAbsent};
ghost use Rattle.chart_cli.specs.Outcomes.{FindsLines};
ghost use Rattle.chart_cli.specs.Views.{node_view, sources_view};
ghost use Rattle.chart_cli.specs.Words.{ask, check as check_of, ground, node as node_of};
ghost use Rattle.cell_check.specs.Verdicts.{IsVerdict};

use crate::cell_lines::{Question, lines_of_chart};
use crate::files::{chart_at, grid_at};
use crate::halt::Halt;
use crate::inputs::inputs_of;
use crate::lines::{line_of_ground, line_of_node, line_of_verdict};
use crate::words::{NodeWords, OriginWords, SourceWords};
use cell_check::{Verdict, check};
use chart_dev::Shelf;
use chart_ground::ground_at;
use chart_model::Chart;
use grid_reader::Sense;
use plane_geom::Point;
use std::alloc::{AllocError, Global};

/// The line of a node of the grid in a file. No sheet is named that could say otherwise: values are depths, positive
/// down.
pub(crate) fn node_lines<S: Shelf>(
    alloc: Global,
    shelf: &mut S,
    node: NodeWords<'_>,
) -> Result<Vec<u8>, Halt>
    ensures finds { IfSome (S.told shelf.old) (λ files. FindsLines result (due_of (node_of (node_view node.entry)) files)) }
    ensures device { IsErrOf result Halt.Device → Rose (S.faults shelf.old) (S.faults shelf.new) ⊎ IsAbsent (Some (node_of (node_view node.entry))) (S.told shelf.old) }
    ensures kept { S.told shelf.new ≡ S.told shelf.old }
    ensures later { S.faults shelf.old ≤ S.faults shelf.new }
{
    let grid = grid_at(alloc, shelf, node.grid, Sense::Down)?;
    let line = line_of_node(alloc, &grid, node)?;
    Ok(line.into_bytes())
}

/// The line of what lies at a point by the grid and the sheet in the files of these names.
pub(crate) fn ground_lines<S: Shelf>(
    alloc: Global,
    shelf: &mut S,
    names: SourceWords<'_>,
    p: Point,
) -> Result<Vec<u8>, Halt>
    ensures finds { IfSome (S.told shelf.old) (λ files. FindsLines result (due_of (ground (sources_view names.entry) p) files)) }
    ensures device { IsErrOf result Halt.Device → Rose (S.faults shelf.old) (S.faults shelf.new) ⊎ IsAbsent (Some (ground (sources_view names.entry) p)) (S.told shelf.old) }
    ensures kept { S.told shelf.new ≡ S.told shelf.old }
    ensures later { S.faults shelf.old ≤ S.faults shelf.new }
{
    let inputs = inputs_of(alloc, shelf, OriginWords::Sources(names))?;
    let ground = ground_at(alloc, &inputs.grid, &inputs.sheet, p)?;
    let line = line_of_ground(alloc, ground)?;
    Ok(line.into_bytes())
}

/// The lines that answer a question about the chart of the cell in a file.
pub(crate) fn chart_lines<S: Shelf>(
    alloc: Global,
    shelf: &mut S,
    cell: &str,
    question: Question,
) -> Result<Vec<u8>, Halt>
    ensures finds { IfSome (S.told shelf.old) (λ files. FindsLines result (due_of (ask cell.now question) files)) }
    ensures device { IsErrOf result Halt.Device → Rose (S.faults shelf.old) (S.faults shelf.new) ⊎ IsAbsent (Some (ask cell.now question)) (S.told shelf.old) }
    ensures kept { S.told shelf.new ≡ S.told shelf.old }
    ensures later { S.faults shelf.old ≤ S.faults shelf.new }
{
    let chart = chart_at(alloc, shelf, cell)?;
    let lines = lines_of_chart(alloc, &chart, question)?;
    Ok(lines)
}

// The verdict on the tiling of a chart.
fn verdict_of(alloc: Global, chart: &Chart) -> Result<Verdict, AllocError>
    requires { IsMeasured chart.now }
    ensures { IfOk result (IsVerdict chart.now) }
{
    check(alloc, chart)
}

// The line of the verdict on the tiling of a chart.
fn verdict_answer(alloc: Global, chart: &Chart) -> Result<Vec<u8>, Halt>
    requires { IsMeasured chart.now }
    ensures finds { FindsLines result (judges chart.now) }
    ensures memory { IsErrOf result Halt.Device → ⊥ }
{
    let verdict = verdict_of(alloc, chart)?;
    let line = line_of_verdict(alloc, verdict)?;
    Ok(line.into_bytes())
}

/// The line of the verdict on the tiling of the cell in a file.
pub(crate) fn verdict_lines<S: Shelf>(
    alloc: Global,
    shelf: &mut S,
    cell: &str,
) -> Result<Vec<u8>, Halt>
    ensures finds { IfSome (S.told shelf.old) (λ files. FindsLines result (due_of (check_of cell.now) files)) }
    ensures device { IsErrOf result Halt.Device → Rose (S.faults shelf.old) (S.faults shelf.new) ⊎ IsAbsent (Some (check_of cell.now)) (S.told shelf.old) }
    ensures kept { S.told shelf.new ≡ S.told shelf.old }
    ensures later { S.faults shelf.old ≤ S.faults shelf.new }
{
    let chart = chart_at(alloc, shelf, cell)?;
    verdict_answer(alloc, &chart)
}
