// The grid and the sheet that a command names.
ghost use Rattle.std.specs.FinMap.{get};
ghost use Rattle.std.specs.Prelude.{◌≡◌, ◌⊎◌, ◌≤◌, IfSome, IsErrOf, Ok};
ghost use Rattle.chart_dev.specs.Faults.{Rose};
ghost use Rattle.chart_cli.specs.Answers.{inputs_of as inputs_due};
ghost use Rattle.chart_cli.specs.Outcomes.{AreMissing, Finds, LackSources};
ghost use Rattle.chart_cli.specs.Reads.{has_overview as overview_due, inputs_or_refusal, overview_or_refusal, sense_of as sense_due, sources_in};
ghost use Rattle.chart_cli.specs.Views.{inputs_view, origin_view, sources_view};
ghost use Rattle.chart_cli.specs.Words.{overview as overview_of};
ghost use Rattle.chart_cli.specs.Words.{sources};
ghost use Rattle.chart_sample.specs.Rules.{sample_values};
ghost use Rattle.chart_sample.specs.Sample.{sample_view};
ghost use Rattle.depth_grid.specs.Views.{grid_view};
ghost use Rattle.rule_sheet.specs.Views.{sheet_view};

use crate::factor::Factor;
use crate::files::{grid_at, sheet_at};
use crate::halt::Halt;
use crate::lines::{factor_refusal_line, size_refusal_line};
use crate::words::{OriginWords, SourceWords};
use chart_compile::{size_of, within_size};
use chart_dev::Shelf;
use chart_sample::{sample_grid, sample_sheet};
use depth_grid::Grid;
use grid_reader::Sense;
use overview_grid::overview;
use rule_sheet::{Sense2, Sheet};
use std::alloc::Global;

/// A grid and a sheet.
#[derive(Drop)]
pub(crate) struct Inputs {
    pub(crate) grid: Grid,
    pub(crate) sheet: Sheet,
}

fn sense_of(positive: Sense2) -> Sense
    ensures { result ≡ sense_due positive }
{
    match positive {
        Sense2::Down => Sense::Down,
        Sense2::Up => Sense::Up,
    }
}

// The inputs, where a chart of them isn't too large.
fn inputs_within_size(alloc: Global, grid: Grid, sheet: Sheet) -> Result<Inputs, Halt>
    ensures finds { Finds inputs_view result (inputs_or_refusal (record { grid = grid_view grid; sheet = sheet_view sheet })) }
    ensures memory { IsErrOf result Halt.Device → ⊥ }
{
    if within_size(&grid, &sheet) {
        return Ok(Inputs { grid, sheet });
    }
    let line = size_refusal_line(alloc, size_of(&grid, &sheet))?;
    Err(Halt::Refused(line.into_bytes()))
}

// The grid and the sheet in the files of these names: the sheet is read and checked first, then the grid.
fn sources_at<S: Shelf>(
    alloc: Global,
    shelf: &mut S,
    names: SourceWords<'_>,
) -> Result<Inputs, Halt>
    ensures finds { IfSome (S.told shelf.old) (λ files. Finds inputs_view result (sources_in (get files names.entry.sheet.now) (get files names.entry.grid.now))) }
    ensures device { IsErrOf result Halt.Device → Rose (S.faults shelf.old) (S.faults shelf.new) ⊎ LackSources (S.told shelf.old) (sources_view names.entry) }
    ensures kept { S.told shelf.new ≡ S.told shelf.old }
    ensures later { S.faults shelf.old ≤ S.faults shelf.new }
{
    let sheet = sheet_at(alloc, shelf, names.sheet)?;
    let grid = grid_at(alloc, shelf, names.grid, sense_of(sheet.positive))?;
    Ok(Inputs { grid, sheet })
}

// The grid and the sheet in the files of these names, and then the size.
fn inputs_at<S: Shelf>(alloc: Global, shelf: &mut S, names: SourceWords<'_>) -> Result<Inputs, Halt>
    ensures finds { IfSome (S.told shelf.old) (λ files. Finds inputs_view result (inputs_due (sources (sources_view names.entry)) files)) }
    ensures device { IsErrOf result Halt.Device → Rose (S.faults shelf.old) (S.faults shelf.new) ⊎ AreMissing (S.told shelf.old) (sources (sources_view names.entry)) }
    ensures kept { S.told shelf.new ≡ S.told shelf.old }
    ensures later { S.faults shelf.old ≤ S.faults shelf.new }
{
    let Inputs { grid, sheet } = sources_at(alloc, shelf, names)?;
    inputs_within_size(alloc, grid, sheet)
}

fn has_overview(grid: &Grid, factor: u32) -> bool
    ensures { result ≡ overview_due (grid_view grid.now) factor }
{
    (factor as usize) < grid.rows() && (factor as usize) < grid.cols()
}

// The overview of a grid, where the factor is less than its rows and columns.
fn overview_by(alloc: Global, grid: &Grid, factor: Factor) -> Result<Grid, Halt>
    ensures finds { Finds grid_view result (overview_or_refusal factor.number (grid_view grid.now)) }
    ensures memory { IsErrOf result Halt.Device → ⊥ }
{
    if has_overview(grid, factor.number) {
        let coarse = overview(alloc, grid, factor.number)?;
        return Ok(coarse);
    }
    let line = factor_refusal_line(alloc, factor.number)?;
    Err(Halt::Refused(line.into_bytes()))
}

// The overview of the grid in the file of this name, and the sheet: after these two the factor is tested, and then the
// size of the overview. The fine grid's memory is given back before a cell is made.
fn overview_at<S: Shelf>(
    alloc: Global,
    shelf: &mut S,
    names: SourceWords<'_>,
    factor: Factor,
) -> Result<Inputs, Halt>
    ensures finds { IfSome (S.told shelf.old) (λ files. Finds inputs_view result (inputs_due (overview_of (sources_view names.entry) factor.number) files)) }
    ensures device { IsErrOf result Halt.Device → Rose (S.faults shelf.old) (S.faults shelf.new) ⊎ AreMissing (S.told shelf.old) (overview_of (sources_view names.entry) factor.number) }
    ensures kept { S.told shelf.new ≡ S.told shelf.old }
    ensures later { S.faults shelf.old ≤ S.faults shelf.new }
{
    let Inputs { grid: fine, sheet } = sources_at(alloc, shelf, names)?;
    let coarse = overview_by(alloc, &fine, factor)?;
    inputs_within_size(alloc, coarse, sheet)
}

// The sample grid of this number and the sample sheet.
fn sample_inputs(alloc: Global, n: u32) -> Result<Inputs, Halt>
    ensures finds { Finds inputs_view result (Ok (record { grid = sample_view n; sheet = sample_values })) }
    ensures memory { IsErrOf result Halt.Device → ⊥ }
{
    let grid = sample_grid(alloc, n)?;
    let sheet = sample_sheet();
    Ok(Inputs { grid, sheet })
}

/// The grid and the sheet that a cell is made from.
pub(crate) fn inputs_of<S: Shelf>(
    alloc: Global,
    shelf: &mut S,
    origin: OriginWords<'_>,
) -> Result<Inputs, Halt>
    ensures finds { IfSome (S.told shelf.old) (λ files. Finds inputs_view result (inputs_due (origin_view origin.entry) files)) }
    ensures device { IsErrOf result Halt.Device → Rose (S.faults shelf.old) (S.faults shelf.new) ⊎ AreMissing (S.told shelf.old) (origin_view origin.entry) }
    ensures kept { S.told shelf.new ≡ S.told shelf.old }
    ensures later { S.faults shelf.old ≤ S.faults shelf.new }
{
    match origin {
        OriginWords::Sources(names) => inputs_at(alloc, shelf, names),
        OriginWords::Overview(names, factor) => overview_at(alloc, shelf, names, factor),
        OriginWords::Sample(n) => sample_inputs(alloc, n),
    }
}
