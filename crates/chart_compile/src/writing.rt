// The bytes of the parts of a chart.
ghost use Rattle.cell_writer.specs.Layout.{fits_of, layout};
ghost use Rattle.cell_writer.specs.Sized.{IsSized};
ghost use Rattle.chart_model.specs.Tally.{tally_of};
ghost use Rattle.chart_model.specs.Whole.{IsWellFormed, IsWhole, first_fault};
ghost use Rattle.std.specs.Prelude.{◌≡◌, true, None, IfOk, OnOk};

use cell_writer::write_cell;
use chart_model::{Chart, Parts, Tally};
use std::alloc::{AllocError, Global};

/// A cell, and how many areas, contours and soundings its chart has.
#[derive(Drop)]
pub struct Compiled {
    /// The bytes of the cell.
    pub bytes: Vec<u8>,
    /// The numbers of its chart.
    pub tally: Tally,
}

// The cell of a chart each of whose records is short enough.
fn written(alloc: Global, chart: &Chart) -> Result<Compiled, AllocError>
    requires fits { fits_of chart.now ≡ true }
    ensures cell { IfOk result (λ k. k.bytes.items ≡ layout chart.now) }
    ensures sized { OnOk result (IsSized chart.now) }
    ensures tally { IfOk result (λ k. k.tally ≡ tally_of chart.now) }
{
    let tally = chart.tally();
    let bytes = write_cell(alloc, chart)?;
    Ok(Compiled { bytes, tally })
}

/// The cell of parts that are a chart each of whose records is short enough.
pub(crate) fn cell_of(alloc: Global, parts: Parts) -> Result<Compiled, AllocError>
    requires formed { IsWellFormed parts }
    requires faultless { first_fault parts ≡ None }
    requires fits { fits_of parts ≡ true }
    ensures whole { OnOk result (IsWhole parts) }
    ensures cell { IfOk result (λ k. k.bytes.items ≡ layout parts) }
    ensures sized { OnOk result (IsSized parts) }
    ensures tally { IfOk result (λ k. k.tally ≡ tally_of parts) }
{
    match Chart::new(alloc, parts) {
        Ok(chart) => written(alloc, &chart),
        // parts without a fault are refused for want of memory alone: the clause `refused` of `new`
        Err(_) => Err(AllocError),
    }
}
