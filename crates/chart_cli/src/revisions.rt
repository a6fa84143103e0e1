// The chart that an update makes of the chart of a cell.
ghost use Rattle.std.specs.FinMap.{get};
ghost use Rattle.std.specs.Prelude.{◌≡◌, ◌⊎◌, ◌≤◌, IfOk, IfSome, IsErrOf, IsTrue};
ghost use Rattle.cell_reader.specs.Reading.{IsWithin};
ghost use Rattle.cell_writer.specs.Layout.{fits_of};
ghost use Rattle.chart_dev.specs.Faults.{Rose};
ghost use Rattle.chart_cli.specs.Outcomes.{Finds, LackRevision};
ghost use Rattle.chart_cli.specs.Reads.{revised_by, revision_in, update_or_refusal};
ghost use Rattle.chart_cli.specs.Views.{revised_view, revision_view};
ghost use Rattle.update_apply.specs.Applied.{chart_after};
ghost use Rattle.update_reader.specs.Sound.{IsReadUpdate};

use crate::files::{chart_at, update_at};
use crate::halt::Halt;
use crate::update_lines::update_refusal_line;
use crate::words::RevisionWords;
use chart_dev::Shelf;
use chart_model::Chart;
use std::alloc::Global;
use update_apply::change;
use update_reader::{Update, UpdateFault};

/// A chart after an update, and how many records the update has behind its data set record.
#[derive(Drop)]
pub(crate) struct Revised {
    pub(crate) chart: Chart,
    pub(crate) records: usize,
}

// The chart after an update that was read.
fn chart_after(alloc: Global, base: &Chart, update: &Update) -> Result<Chart, Halt>
    requires base { IsWithin 4000000000 base.now }
    requires update { IsReadUpdate 67108864 update.now }
    ensures finds { Finds (λ c. c) result (update_or_refusal (chart_after base.now update.now)) }
    ensures fits { IfOk result (λ c. IsTrue (fits_of c)) }
    ensures memory { IsErrOf result Halt.Device → ⊥ }
{
    match change(alloc, base, update) {
        Ok(chart) => Ok(chart),
        Err(UpdateFault::NoMemory) => Err(Halt::NoMemory),
        Err(fault) => {
            let line = update_refusal_line(alloc, fault)?;
            Err(Halt::Refused(line.into_bytes()))
        }
    }
}

// The chart after an update that was read, and how many records the update has.
fn revised_by(alloc: Global, base: &Chart, update: &Update) -> Result<Revised, Halt>
    requires base { IsWithin 4000000000 base.now }
    requires update { IsReadUpdate 67108864 update.now }
    ensures finds { Finds revised_view result (revised_by base.now update.now) }
    ensures fits { IfOk result (λ r. IsTrue (fits_of r.chart)) }
    ensures memory { IsErrOf result Halt.Device → ⊥ }
{
    let chart = chart_after(alloc, base, update)?;
    let records = update.changes.as_slice().len();
    Ok(Revised { chart, records })
}

/// The chart that the update in a file makes of the chart of the cell in a file: the cell is read and checked first, then
/// the update, and then its changes are made.
pub(crate) fn revised_at<S: Shelf>(
    alloc: Global,
    shelf: &mut S,
    names: RevisionWords<'_>,
) -> Result<Revised, Halt>
    ensures finds { IfSome (S.told shelf.old) (λ files. Finds revised_view result (revision_in (get files names.entry.base.now) (get files names.entry.update.now))) }
    ensures fits { IfOk result (λ r. IsTrue (fits_of r.chart)) }
    ensures device { IsErrOf result Halt.Device → Rose (S.faults shelf.old) (S.faults shelf.new) ⊎ LackRevision (S.told shelf.old) (revision_view names.entry) }
    ensures kept { S.told shelf.new ≡ S.told shelf.old }
    ensures later { S.faults shelf.old ≤ S.faults shelf.new }
{
    let base = chart_at(alloc, shelf, names.base)?;
    let update = update_at(alloc, shelf, names.update)?;
    revised_by(alloc, &base, &update)
}
