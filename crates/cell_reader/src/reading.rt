// A whole file.
ghost use Rattle.std.specs.Prelude.{◌≤◌, true, length, IfOk};
ghost use Rattle.chart_model.specs.Tally.{IsMeasured};
ghost use Rattle.chart_model.specs.Whole.{first_fault, IsWellFormed};
ghost use Rattle.iso8211_codec.specs.Views.{to_come};
ghost use Rattle.cell_reader.specs.Faults.{Gives};
ghost use Rattle.cell_reader.specs.Reading.{reading, IsWithin, parts_or_fault, need_count, need_counts, chart_of};
ghost use Rattle.cell_reader.specs.Records.{nothing, contents_after};
ghost use Rattle.cell_reader.specs.Views.{contents_of};
ghost use Rattle.cell_reader.specs.Sound.{IsSound};

use crate::fault::CellFault;
use crate::gathered::Gathered;
use crate::header::header_of;
use crate::record::take_record;
use chart_model::{Chart, Items, Parts, whole_laws};
use iso8211_codec::{Records, record_laws};
use record_values::{VectorGroups, list_fields};
use s57_records::Dssi;
use std::alloc::Global;

/// Takes in all records to come.
fn gather<'a>(alloc: Global, records: &mut Records<'a>) -> Result<Gathered<'a>, CellFault>
    ensures { Gives contents_of result (contents_after nothing (to_come records.old)) }
{
    let mut all = Gathered::new(alloc);
    let mut groups = VectorGroups::new(alloc);
    let mut fields = Vec::new(alloc);
    while let Some(answer) = records.next_rec() {
        let record = answer?;
        list_fields(&record, &mut fields)?;
        take_record(alloc, record.at(), &fields, &mut groups, &mut all)?;
    }
    Ok(all)
}

/// Tests a number of records that is stated against the number found.
fn count(which: u8, stated: u64, found: usize) -> Result<(), CellFault>
    ensures { Gives (λ _. true) result (need_count which stated found) }
{
    if stated == found as u64 {
        Ok(())
    } else {
        Err(CellFault::Count(which, stated, found as u64))
    }
}

/// Tests the numbers of isolated nodes, connected nodes, edges and features.
#[tactic(auto, unfolding(crate::specs::Reading::need_counts))]
fn count_all(dssi: &Dssi, chart: Chart) -> Result<Chart, CellFault>
    ensures { Gives (λ c. c) result (need_counts dssi.now chart) }
{
    let parts = chart.parts();
    count(1, u64::from(dssi.noin), parts.isolated.as_slice().len())?;
    count(2, u64::from(dssi.nocn), parts.connected.as_slice().len())?;
    count(3, u64::from(dssi.noed), parts.edges.as_slice().len())?;
    let features = u64::from(dssi.nomr)
        + u64::from(dssi.nocr)
        + u64::from(dssi.nogr)
        + u64::from(dssi.nolr);
    count(4, features, parts.features.as_slice().len())?;
    Ok(chart)
}

/// The chart of these parts.
fn join(alloc: Global, parts: Parts) -> Result<Chart, CellFault>
    requires { IsWellFormed parts }
    ensures { Gives (λ c. c) result (parts_or_fault (first_fault parts) parts) }
{
    whole_laws();
    Ok(Chart::new(alloc, parts)?)
}

/// The chart of all records of a file of so many bytes.
#[tactic(auto, unfolding(crate::specs::Reading::chart_of))]
fn finish(alloc: Global, size: usize, all: Gathered<'_>) -> Result<Chart, CellFault>
    requires limit { size ≤ 4000000000 }
    requires sound { IsSound size (contents_of all) }
    ensures { Gives (λ c. c) result (chart_of size (contents_of all.entry)) }
{
    let (Some(identity), Some(units)) = (all.identity, all.units) else {
        return Err(CellFault::Kind(size));
    };
    let header = header_of(alloc, &identity.identity, &identity.structure, &units)?;
    let parts = Parts {
        header,
        isolated: Items::over(all.isolated),
        connected: Items::over(all.connected),
        edges: Items::over(all.edges),
        features: Items::over(all.features),
    };
    let chart = join(alloc, parts)?;
    count_all(&identity.structure, chart)
}

/// The chart that the bytes of a cell stand for (S-57 Edition 3.1, Part 3, over ISO/IEC 8211), or the first fault.
///
/// The bytes are read to their end. Fields and objects that no rule here names are passed over.
#[tactic(auto, unfolding(crate::specs::Reading::reading))]
pub fn read_cell(alloc: Global, bytes: &[u8]) -> Result<Chart, CellFault>
    requires { length bytes.now ≤ 4000000000 }
    ensures gives { Gives (λ c. c) result (reading bytes.now) }
    ensures measured { IfOk result IsMeasured }
    ensures within { IfOk result (IsWithin (length bytes.now)) }
{
    record_laws();
    let mut records = Records::new(bytes)?;
    let all = gather(alloc, &mut records)?;
    finish(alloc, bytes.len(), all)
}
