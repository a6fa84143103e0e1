// The grid, the sheet, the chart or the update in a file.
ghost use Rattle.std.specs.Prelude.{◌≡◌, ◌⊎◌, ◌≤◌, ◌<◌, ◌^◌, length, IfOk, IfSome, IsErrOf};
ghost use Rattle.std.specs.FinMap.{get};
ghost use Rattle.cell_reader.specs.Reading.{IsWithin, reading as cell_reading};
ghost use Rattle.chart_dev.specs.Contents.{IsMissing};
ghost use Rattle.chart_dev.specs.Faults.{Rose};
ghost use Rattle.chart_cli.specs.Outcomes.{Finds};
ghost use Rattle.chart_cli.specs.Reads.{chart_in, chart_or_refusal, file_in, grid_in, grid_or_refusal, sheet_in, sheet_or_refusal, sheet_reading, update_in, update_or_refusal};
ghost use Rattle.chart_model.specs.Tally.{IsMeasured};
ghost use Rattle.depth_grid.specs.Views.{grid_view};
ghost use Rattle.grid_reader.specs.Reading.{reading as grid_reading};
ghost use Rattle.rule_sheet.specs.Sheet.{Gives};
ghost use Rattle.rule_sheet.specs.Views.{sheet_view};
ghost use Rattle.update_reader.specs.Reading.{update_reading};
ghost use Rattle.update_reader.specs.Sound.{IsReadUpdate};

use crate::cell_lines::cell_refusal_line;
use crate::halt::Halt;
use crate::lines::{grid_refusal_line, sheet_refusal_line};
use crate::update_lines::update_refusal_line;
use cell_reader::{CellFault, read_cell};
use chart_dev::{ReadFault, Shelf, read_whole};
use chart_model::Chart;
use depth_grid::Grid;
use grid_reader::{GridFault, Sense, read_grid};
use rule_sheet::{Sheet, SheetFault, read_sheet};
use std::alloc::Global;
use update_reader::{Update, UpdateFault, read_update};

/// How many bytes a grid's file may have: 64 MiB.
const GRID_LIMIT: u64 = 67_108_864;

/// How many bytes a sheet's file may have: 64 KiB.
const SHEET_LIMIT: u64 = 65_536;

/// How many bytes a cell's file may have.
const CELL_LIMIT: u64 = 4_000_000_000;

/// How many bytes an update's file may have: 64 MiB.
const UPDATE_LIMIT: u64 = 67_108_864;

/// The bytes of the file of this name, which may have so many. A larger file is refused with this line.
fn file_at<S: Shelf>(
    alloc: Global,
    shelf: &mut S,
    name: &str,
    limit: u64,
    too_large: &[u8],
) -> Result<Vec<u8>, Halt>
    requires { limit < 2 ^ 40 }
    ensures finds { IfSome (S.told shelf.old) (λ files. Finds (λ v. v.items) result (file_in limit too_large.now (get files name.now))) }
    ensures fits { IfOk result (λ v. length v.items ≤ limit) }
    ensures device { IsErrOf result Halt.Device → Rose (S.faults shelf.old) (S.faults shelf.new) ⊎ IsMissing (S.told shelf.old) name.now }
    ensures kept { S.told shelf.new ≡ S.told shelf.old }
    ensures later { S.faults shelf.old ≤ S.faults shelf.new }
{
    match read_whole(alloc, shelf, name, limit) {
        Ok(bytes) => Ok(bytes),
        Err(ReadFault::Device) => Err(Halt::Device),
        Err(ReadFault::NoMemory) => Err(Halt::NoMemory),
        Err(ReadFault::TooLarge) => {
            let line = Vec::from_slice(alloc, too_large)?;
            Err(Halt::Refused(line))
        }
    }
}

fn grid_from(alloc: Global, bytes: &[u8], positive: Sense) -> Result<Grid, Halt>
    ensures finds { Finds grid_view result (grid_or_refusal (grid_reading positive bytes.now)) }
    ensures memory { IsErrOf result Halt.Device → ⊥ }
{
    match read_grid(alloc, bytes, positive) {
        Ok(grid) => Ok(grid),
        Err(GridFault::NoMemory) => Err(Halt::NoMemory),
        Err(fault) => {
            let line = grid_refusal_line(alloc, fault)?;
            Err(Halt::Refused(line.into_bytes()))
        }
    }
}

/// The grid in the file of this name.
pub(crate) fn grid_at<S: Shelf>(
    alloc: Global,
    shelf: &mut S,
    name: &str,
    positive: Sense,
) -> Result<Grid, Halt>
    ensures finds { IfSome (S.told shelf.old) (λ files. Finds grid_view result (grid_in positive (get files name.now))) }
    ensures device { IsErrOf result Halt.Device → Rose (S.faults shelf.old) (S.faults shelf.new) ⊎ IsMissing (S.told shelf.old) name.now }
    ensures kept { S.told shelf.new ≡ S.told shelf.old }
    ensures later { S.faults shelf.old ≤ S.faults shelf.new }
{
    let bytes = file_at(alloc, shelf, name, GRID_LIMIT, b"refused grid large\n")?;
    grid_from(alloc, &bytes, positive)
}

fn sheet_or_fault(alloc: Global, text: &[u8]) -> Result<Sheet, SheetFault>
    ensures { Gives sheet_view result (sheet_reading text.now) }
{
    read_sheet(alloc, text)
}

fn sheet_from(alloc: Global, text: &[u8]) -> Result<Sheet, Halt>
    ensures finds { Finds sheet_view result (sheet_or_refusal (sheet_reading text.now)) }
    ensures memory { IsErrOf result Halt.Device → ⊥ }
{
    match sheet_or_fault(alloc, text) {
        Ok(sheet) => Ok(sheet),
        Err(SheetFault::NoMemory) => Err(Halt::NoMemory),
        Err(fault) => {
            let line = sheet_refusal_line(alloc, fault)?;
            Err(Halt::Refused(line.into_bytes()))
        }
    }
}

/// The sheet in the file of this name.
pub(crate) fn sheet_at<S: Shelf>(alloc: Global, shelf: &mut S, name: &str) -> Result<Sheet, Halt>
    ensures finds { IfSome (S.told shelf.old) (λ files. Finds sheet_view result (sheet_in (get files name.now))) }
    ensures device { IsErrOf result Halt.Device → Rose (S.faults shelf.old) (S.faults shelf.new) ⊎ IsMissing (S.told shelf.old) name.now }
    ensures kept { S.told shelf.new ≡ S.told shelf.old }
    ensures later { S.faults shelf.old ≤ S.faults shelf.new }
{
    let bytes = file_at(alloc, shelf, name, SHEET_LIMIT, b"refused sheet large\n")?;
    sheet_from(alloc, &bytes)
}

fn chart_from(alloc: Global, bytes: &[u8]) -> Result<Chart, Halt>
    requires { length bytes.now ≤ 4000000000 }
    ensures finds { Finds (λ c. c) result (chart_or_refusal (cell_reading bytes.now)) }
    ensures measured { IfOk result IsMeasured }
    ensures within { IfOk result (IsWithin (length bytes.now)) }
    ensures memory { IsErrOf result Halt.Device → ⊥ }
{
    match read_cell(alloc, bytes) {
        Ok(chart) => Ok(chart),
        Err(CellFault::NoMemory) => Err(Halt::NoMemory),
        Err(fault) => {
            let line = cell_refusal_line(alloc, fault)?;
            Err(Halt::Refused(line.into_bytes()))
        }
    }
}

/// The chart of the cell in the file of this name. The bytes are given back before the chart is.
pub(crate) fn chart_at<S: Shelf>(alloc: Global, shelf: &mut S, name: &str) -> Result<Chart, Halt>
    ensures finds { IfSome (S.told shelf.old) (λ files. Finds (λ c. c) result (chart_in (get files name.now))) }
    ensures measured { IfOk result IsMeasured }
    ensures within { IfOk result (IsWithin 4000000000) }
    ensures device { IsErrOf result Halt.Device → Rose (S.faults shelf.old) (S.faults shelf.new) ⊎ IsMissing (S.told shelf.old) name.now }
    ensures kept { S.told shelf.new ≡ S.told shelf.old }
    ensures later { S.faults shelf.old ≤ S.faults shelf.new }
{
    let bytes = file_at(alloc, shelf, name, CELL_LIMIT, b"refused cell large\n")?;
    chart_from(alloc, &bytes)
}

fn update_from(alloc: Global, bytes: &[u8]) -> Result<Update, Halt>
    requires { length bytes.now ≤ 67108864 }
    ensures finds { Finds (λ u. u) result (update_or_refusal (update_reading bytes.now)) }
    ensures read { IfOk result (IsReadUpdate (length bytes.now)) }
    ensures memory { IsErrOf result Halt.Device → ⊥ }
{
    match read_update(alloc, bytes) {
        Ok(update) => Ok(update),
        Err(UpdateFault::NoMemory) => Err(Halt::NoMemory),
        Err(fault) => {
            let line = update_refusal_line(alloc, fault)?;
            Err(Halt::Refused(line.into_bytes()))
        }
    }
}

/// The update in the file of this name. The bytes are given back before the update's changes are made.
pub(crate) fn update_at<S: Shelf>(alloc: Global, shelf: &mut S, name: &str) -> Result<Update, Halt>
    ensures finds { IfSome (S.told shelf.old) (λ files. Finds (λ u. u) result (update_in (get files name.now))) }
    ensures read { IfOk result (IsReadUpdate 67108864) }
    ensures device { IsErrOf result Halt.Device → Rose (S.faults shelf.old) (S.faults shelf.new) ⊎ IsMissing (S.told shelf.old) name.now }
    ensures kept { S.told shelf.new ≡ S.told shelf.old }
    ensures later { S.faults shelf.old ≤ S.faults shelf.new }
{
    let bytes = file_at(alloc, shelf, name, UPDATE_LIMIT, b"refused update large\n")?;
    update_from(alloc, &bytes)
}
