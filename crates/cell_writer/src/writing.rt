// The cell of a chart.
ghost use Rattle.std.specs.Prelude.{◌≡◌, ◌++◌, ◌+◌, ◌≤◌, [], All, IfOk, IsTrue, OnOk, length, vec_capacity};
ghost use Rattle.std.specs.List.{flat_map, list_all};
ghost use Rattle.cell_writer.specs.Layout.{feature_records, fits_of, is_short, layout, vector_records};
ghost use Rattle.cell_writer.specs.Sized.{ConnectedFits, EdgeFits, FeatureFits, IsSized, IsolatedFits};
ghost use Rattle.chart_model.specs.Tally.{IsMeasured};
ghost use Rattle.chart_model.specs.Whole.{IsWellFormed};
ghost use Rattle.iso8211_codec.specs.Layout.{record_of};
ghost use Rattle.iso8211_codec.specs.Room.{KeepsRoom};

use crate::data_set::{write_data_set, write_parameters};
use crate::draft::Draft;
use crate::feature::write_features;
use crate::sizes::cell_size;
use crate::vector::{write_connected_nodes, write_edges, write_isolated_nodes};
use chart_model::{Chart, Parts};
use iso8211_codec::write_first;
use std::alloc::{AllocError, Global};

/// Whether each record of the chart's cell has at most 99,999 bytes, the most that five digits say (ISO/IEC 8211). The
/// lists of such a chart meet the conditions of its tally. It takes no memory.
pub fn fits(chart: &Chart) -> bool
    ensures fits { result ≡ fits_of chart.now }
    ensures measured { IsTrue result → IsMeasured chart.now }
{
    cell_size(chart.parts()).is_some()
}

/// Appends the records of nodes, edges and features.
fn write_lists(out: &mut Vec<u8>, draft: &mut Draft, parts: &Parts) -> Result<(), AllocError>
    requires vectors { IsTrue (list_all is_short (vector_records parts.now)) }
    requires features { IsTrue (list_all is_short (feature_records parts.now)) }
    requires well_formed { IsWellFormed parts.now }
    ensures items { OnOk result (out.new.items ≡ out.old.items ++ flat_map record_of (vector_records parts.now ++ feature_records parts.now)) }
    ensures room { OnOk result (KeepsRoom out.old out.new) }
    ensures isolated { OnOk result (All IsolatedFits parts.now.isolated) }
    ensures connected { OnOk result (All ConnectedFits parts.now.connected) }
    ensures edges { OnOk result (All EdgeFits parts.now.edges) }
    ensures features { OnOk result (All FeatureFits parts.now.features) }
{
    let isolated = parts.isolated.as_slice();
    let connected = parts.connected.as_slice();
    let edges = parts.edges.as_slice();
    let features = parts.features.as_slice();
    let mut place = 3;
    write_isolated_nodes(out, draft, place, isolated)?;
    place += isolated.len();
    write_connected_nodes(out, draft, place, connected)?;
    place += connected.len();
    write_edges(out, draft, place, edges)?;
    place += edges.len();
    write_features(out, draft, place, features)
}

/// The length of the chart's cell in bytes. It takes no memory.
pub fn cell_len(chart: &Chart) -> usize
    requires { IsTrue (fits_of chart.now) }
    ensures { result ≡ length (layout chart.now) }
{
    // Each record is short enough, so there is a length.
    cell_size(chart.parts()).unwrap_or(0)
}

/// An empty list with room for exactly the chart's cell.
fn room_for(alloc: Global, chart: &Chart) -> Result<Vec<u8>, AllocError>
    requires { IsTrue (fits_of chart.now) }
    ensures empty { IfOk result (λ cell. cell.items ≡ []) }
    ensures exact { IfOk result (λ cell. vec_capacity cell ≡ length (layout chart.now)) }
{
    Vec::with_capacity(alloc, cell_len(chart))
}

/// The bytes of the chart's cell (S-57 Edition 3.1, Part 3). Each value fits the field that it is written to. It asks once
/// for exactly `cell_len` bytes, before it writes the first of them; beside them there are the fields of one record at a
/// time. Refuses only for want of memory.
pub fn write_cell(alloc: Global, chart: &Chart) -> Result<Vec<u8>, AllocError>
    requires { IsTrue (fits_of chart.now) }
    ensures cell { IfOk result (λ cell. cell.items ≡ layout chart.now) }
    ensures room { IfOk result (λ cell. vec_capacity cell ≡ length (layout chart.now)) }
    ensures sized { OnOk result (IsSized chart.now) }
{
    let parts = chart.parts();
    let mut cell = room_for(alloc, chart)?;
    let mut draft = Draft::new(alloc);
    write_first(&mut cell)?;
    write_data_set(&mut cell, &mut draft, parts)?;
    write_parameters(&mut cell, &mut draft, &parts.header)?;
    write_lists(&mut cell, &mut draft, parts)?;
    Ok(cell)
}
