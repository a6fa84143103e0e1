// The cell and the line that answer a command which stores a cell, before it does.
ghost use Rattle.std.specs.Prelude.{◌≡◌, ◌⊎◌, ◌≤◌, ℕ, List, Some, IfOk, IfSome, IsErrOf, IsTrue};
ghost use Rattle.cell_reader.specs.Reading.{StandsFor};
ghost use Rattle.cell_writer.specs.Layout.{fits_of, layout};
ghost use Rattle.chart_dev.specs.Faults.{Rose};
ghost use Rattle.chart_cli.specs.Answers.{due_of, makes, revises};
ghost use Rattle.chart_cli.specs.Ends.{IsAbsent};
ghost use Rattle.chart_cli.specs.Outcomes.{FindsCell};
ghost use Rattle.chart_cli.specs.Views.{origin_view, revised_view, revision_view};
ghost use Rattle.chart_cli.specs.Words.{make, revise};
ghost use Rattle.depth_grid.specs.Views.{grid_view};
ghost use Rattle.rule_sheet.specs.Views.{sheet_view};

use crate::halt::Halt;
use crate::inputs::{Inputs, inputs_of};
use crate::lines::line_of_cell;
use crate::revisions::{Revised, revised_at};
use crate::update_lines::line_of_revised;
use crate::words::{OriginWords, RevisionWords};
use cell_laws::cell_laws;
use cell_writer::write_cell;
use chart_compile::{Compiled, compile};
use chart_dev::Shelf;
use chart_model::Chart;
use std::alloc::{AllocError, Global};

/// The bytes of a cell, and the line that is put out once they are stored.
#[derive(Drop)]
pub(crate) struct CellAnswer {
    pub(crate) bytes: Vec<u8>,
    pub(crate) line: Vec<u8>,
}

// The cell of a grid and a sheet.
fn answer_of(alloc: Global, inputs: &Inputs) -> Result<CellAnswer, Halt>
    ensures finds { (cell : List ℕ) → FindsCell cell result (makes cell (grid_view inputs.now.grid) (sheet_view inputs.now.sheet)) }
    ensures memory { IsErrOf result Halt.Device → ⊥ }
{
    let Compiled { bytes, tally } = compile(alloc, &inputs.grid, &inputs.sheet)?;
    let line = line_of_cell(alloc, tally, bytes.len())?;
    let line = line.into_bytes();
    Ok(CellAnswer { bytes, line })
}

/// The cell that is made from these words' grid and sheet, under whatever name.
pub(crate) fn cell_answer<S: Shelf>(
    alloc: Global,
    shelf: &mut S,
    origin: OriginWords<'_>,
) -> Result<CellAnswer, Halt>
    ensures finds { IfSome (S.told shelf.old) (λ files. (cell : List ℕ) → FindsCell cell result (due_of (make (origin_view origin.entry) cell) files)) }
    ensures device { (cell : List ℕ) → IsErrOf result Halt.Device → Rose (S.faults shelf.old) (S.faults shelf.new) ⊎ IsAbsent (Some (make (origin_view origin.entry) cell)) (S.told shelf.old) }
    ensures kept { S.told shelf.new ≡ S.told shelf.old }
    ensures later { S.faults shelf.old ≤ S.faults shelf.new }
{
    let inputs = inputs_of(alloc, shelf, origin)?;
    answer_of(alloc, &inputs)
}

// The cell that a chart is written as, which stands for it.
fn written(alloc: Global, chart: &Chart) -> Result<Vec<u8>, AllocError>
    requires { IsTrue (fits_of chart.now) }
    ensures written { IfOk result (λ cell. cell.items ≡ layout chart.now) }
    ensures decodes { IfOk result (λ cell. StandsFor cell.items chart.now) }
{
    cell_laws();
    // for its clause `whole`, which the law of cells asks for
    let _parts = chart.parts();
    let cell = write_cell(alloc, chart)?;
    Ok(cell)
}

// The cell of a chart after an update.
fn answer_of_revised(alloc: Global, revised: &Revised) -> Result<CellAnswer, Halt>
    requires { IsTrue (fits_of revised.now.chart) }
    ensures finds { (cell : List ℕ) → FindsCell cell result (revises cell (revised_view revised.now)) }
    ensures memory { IsErrOf result Halt.Device → ⊥ }
{
    let bytes = written(alloc, &revised.chart)?;
    let line = line_of_revised(alloc, revised.records, bytes.len())?;
    let line = line.into_bytes();
    Ok(CellAnswer { bytes, line })
}

/// The cell that an update makes of a cell, under whatever name.
pub(crate) fn revised_cell_answer<S: Shelf>(
    alloc: Global,
    shelf: &mut S,
    names: RevisionWords<'_>,
) -> Result<CellAnswer, Halt>
    ensures finds { IfSome (S.told shelf.old) (λ files. (cell : List ℕ) → FindsCell cell result (due_of (revise (revision_view names.entry) cell) files)) }
    ensures device { (cell : List ℕ) → IsErrOf result Halt.Device → Rose (S.faults shelf.old) (S.faults shelf.new) ⊎ IsAbsent (Some (revise (revision_view names.entry) cell)) (S.told shelf.old) }
    ensures kept { S.told shelf.new ≡ S.told shelf.old }
    ensures later { S.faults shelf.old ≤ S.faults shelf.new }
{
    let revised = revised_at(alloc, shelf, names)?;
    answer_of_revised(alloc, &revised)
}
