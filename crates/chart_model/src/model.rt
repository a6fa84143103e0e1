// The chart itself.
ghost use Rattle.std.specs.Option.{option_or};
ghost use Rattle.std.specs.Prelude.{◌≡◌, IfErr, IfOk, IsOkUnless, OnOk};
ghost use Rattle.chart_model.specs.RecordIndexes.{AreRecordIndexes};
ghost use Rattle.chart_model.specs.Whole.{first_fault, first_lost, first_open, first_twice, IsWellFormed, IsWhole, Refuses};
ghost use Rattle.chart_model.specs.declared.fault.PartFault.TheVariants.{NoMemory};
ghost use Rattle.chart_model.specs.declared.records.Parts.{Parts};

use crate::closed::unclosed;
use crate::lost::lost;
use crate::record_indexes::{RecordIndexes, indexes_of};
use crate::{PartFault, Parts};
use std::alloc::Global;
use std::marker::Model;

/// A chart: parts in which no number stands twice in a list, every pointer names a node or an edge, and every area closes.
///
/// Clauses see it as its parts.
#[derive(Drop)]
pub struct Chart {
    pub(crate) parts: Parts,
    pub(crate) indexes: RecordIndexes,
}

impl Model for Chart {
    ghost Value = { Parts };

    ghost view = { λ s. s.parts };

    ghost invariant = { λ s. IsWhole s.parts × AreRecordIndexes s.parts s.indexes };
}

impl Chart {
    /// A chart of these parts, or the first cause why they are none: a number that stands twice, by the order of the lists
    /// isolated nodes, connected nodes, edges and features; then a pointer to nothing, those of edges before those of
    /// features and an edge's first node before its last; then an area for which some connected node has an odd number of
    /// ends of its edges. Refused parts are given up.
    pub fn new(alloc: Global, parts: Parts) -> Result<Chart, PartFault>
        requires { IsWellFormed parts }
        ensures same { IfOk result (λ c. c ≡ parts) }
        ensures whole { OnOk result (IsWhole parts) }
        ensures refused { IfErr result (Refuses (first_fault parts)) }
        ensures taken { IsWhole parts → IsOkUnless result NoMemory }
    {
        let indexes = checked(alloc, &parts)?;
        Ok(Chart { parts, indexes })
    }

    /// The parts of the chart.
    pub fn parts(&self) -> &Parts
        ensures same { result.now ≡ self.now }
        ensures whole { IsWhole self.now }
    {
        &self.parts
    }
}

/// The indexes of whole parts.
fn checked(alloc: Global, parts: &Parts) -> Result<RecordIndexes, PartFault>
    requires { IsWellFormed parts.now }
    ensures indexes { IfOk result (AreRecordIndexes parts.now) }
    ensures none { OnOk result (first_fault parts.now ≡ None) }
    ensures refused { IfErr result (Refuses (first_fault parts.now)) }
{
    let indexes = indexes_of(alloc, parts)?;
    if let Some(name) = lost(parts, &indexes) {
        return Err(PartFault::Lost(name.rcnm, name.rcid));
    }
    match unclosed(alloc, parts, &indexes)? {
        Some(rcid) => Err(PartFault::Unclosed(rcid)),
        None => Ok(indexes),
    }
}
