// From a grid and a sheet to the bytes of a cell.
ghost use Rattle.cell_writer.specs.Layout.{fits_of};
ghost use Rattle.chart_compile.specs.Cell.{IsCellOf};
ghost use Rattle.chart_definitions.specs.ChartOf.{IsChartOf};
ghost use Rattle.chart_model.specs.Whole.{IsWellFormed, first_fault};
ghost use Rattle.built_parts.specs.Made.{AreMade, HaveSelectedSoundings};
ghost use Rattle.depth_grid.specs.Views.{grid_view};
ghost use Rattle.depth_rounding.specs.Views.{levels_view};
ghost use Rattle.rule_sheet.specs.Views.{sheet_view};
ghost use Rattle.shoal_buffer.specs.Views.{charted_view};
ghost use Rattle.sounding_select.specs.Selection.{IsSelection};
ghost use Rattle.std.specs.Prelude.{◌≡◌, ℕ, ◌+◌, ◌*◌, ◌^◌, ◌<◌, ◌≤◌, ◌==◌, ◌||◌, true, None, IfOk, OnOk, length, slice_index_or, take};

use crate::extent::extent_of;
use crate::header::header_of;
use crate::kinds::features_of;
use crate::nodes::{connected_of, edges_of, isolated_of};
use crate::topology::Topology;
use crate::writing::{Compiled, cell_of};
use boundary_arcs::arcs;
use cell_laws::cell_laws;
use chart_model::{Isolated, Items, Parts};
use depth_grid::{Grid, NodeId, Radii};
use depth_rounding::Levels;
use exterior_laws::areas_begin_with_exteriors;
use face_fill::{by_need, fill};
use mesh_ground_laws::fields_are_sound;
use parts_laws::{made_parts_are_faultless, made_parts_are_the_chart, made_parts_are_well_formed};
use point_laws::answers_agree;
use record_size_laws::{
    blocks_by_need_have_short_borders, records_of_made_parts_fit, small_rectangles_ask_little,
};
use rule_sheet::Sheet;
use shoal_buffer::{Charted, generalise};
use sounding_select::select;
use std::alloc::{AllocError, Global};
use tiling_laws::truth_law;

// The nodes that become soundings, by one radius or one for each band.
fn chosen_of(
    alloc: Global,
    ch: &Charted,
    levels: &Levels,
    radii: Radii,
) -> Result<Vec<NodeId>, AllocError>
    requires aspect { radii.aspect ≤ 1000 }
    requires count { radii.count ≤ 21 }
    requires one_or_each { (length (take radii.count radii.radius) == 1 || length (take radii.count radii.radius) == length (levels_view levels.now) + 1) ≡ true }
    requires small { (k : ℕ) → k < length (take radii.count radii.radius) → slice_index_or (take radii.count radii.radius) k 0 ≤ 64000 }
    ensures selection { IfOk result (λ v. IsSelection (charted_view ch.now) (levels_view levels.now) radii v.items) }
    ensures few { IfOk result (λ v. length v.items ≤ length (charted_view ch.now).grid.ys * length (charted_view ch.now).grid.xs) }
    ensures radii { radii.count ≤ length radii.radius }
{
    select(alloc, ch, levels, &radii)
}

// The isolated nodes of a generalised grid: the selected soundings.
fn soundings_of(alloc: Global, ch: &Charted, sheet: &Sheet) -> Result<Vec<Isolated>, AllocError>
    ensures soundings { IfOk result (λ v. HaveSelectedSoundings (charted_view ch.now) (levels_view sheet.now.levels) sheet.now.radii v.items) }
    ensures few { IfOk result (λ v. length v.items ≤ 2 ^ 20) }
    ensures radii { OnOk result (sheet.now.radii.count ≤ length sheet.now.radii.radius) }
{
    let chosen = chosen_of(alloc, ch, &sheet.levels, sheet.radii)?;
    isolated_of(alloc, ch, &chosen)
}

// The parts of the chart of a grid and a sheet.
fn parts_of(alloc: Global, grid: &Grid, sheet: &Sheet) -> Result<Parts, AllocError>
    ensures { IfOk result (AreMade (grid_view grid.now) (sheet_view sheet.now)) }
{
    let ch = generalise(alloc, grid, &sheet.disc, &sheet.bands)?;
    let isolated = soundings_of(alloc, &ch, sheet)?;
    let blocks = by_need(alloc, &ch, &sheet.levels)?;
    let faces = fill(alloc, &ch, &sheet.levels, &blocks)?;
    let arcs = arcs(alloc, &faces, &ch, &sheet.levels, &blocks)?;
    let topology = Topology {
        arcs: &arcs,
        faces: &faces,
        levels: &sheet.levels,
        blocks: blocks.count(),
    };
    let features = features_of(alloc, &topology, extent_of(&ch), sheet, isolated.len())?;
    let header = header_of(alloc, sheet)?;
    let connected = connected_of(alloc, arcs.nodes())?;
    let edges = edges_of(alloc, &arcs)?;
    Ok(Parts {
        header,
        isolated: Items::over(isolated),
        connected: Items::over(connected),
        edges: Items::over(edges),
        features: Items::over(features),
    })
}

// The parts of the chart of a grid and a sheet. They are a chart, and each of its records is short enough: these are laws,
// and nothing is tested here.
fn sound_parts(alloc: Global, grid: &Grid, sheet: &Sheet) -> Result<Parts, AllocError>
    ensures is { IfOk result (IsChartOf (grid_view grid.now) (sheet_view sheet.now)) }
    ensures formed { IfOk result IsWellFormed }
    ensures faultless { IfOk result (λ c. first_fault c ≡ None) }
    ensures fits { IfOk result (λ c. fits_of c ≡ true) }
{
    made_parts_are_the_chart();
    made_parts_are_well_formed();
    made_parts_are_faultless();
    small_rectangles_ask_little();
    blocks_by_need_have_short_borders();
    records_of_made_parts_fit();
    parts_of(alloc, grid, sheet)
}

/// The cell of a grid and a sheet (IHO S-57 Edition 3.1, Part 3, over ISO/IEC 8211), and how many areas, contours and
/// soundings its chart has.
///
/// Depths are generalised towards shoal in the sheet's disc and rounded by its steps; soundings are chosen by its radii;
/// cells of the grid are put in blocks by need; areas are the faces between its levels, contours the edges between them,
/// and each block has its coverage and, where the sheet has a category, its quality of data. The bytes decode to a chart
/// that tells the truth: each point of the coverage is on an edge or inside exactly one depth or unsurveyed area, of its
/// kind and range; the soundings are exactly those defined; and no depth area or sounding at a node of the grid is deeper
/// than the node. The pointers of each area begin with an exterior ring: one that runs clockwise and passes no point twice.
/// At every point it answers word for word as the grid and the sheet do.
///
/// It is done for every grid and every sheet, but for want of memory; whoever wants to bound time and memory asks
/// `within_size` first.
pub fn compile(alloc: Global, grid: &Grid, sheet: &Sheet) -> Result<Compiled, AllocError>
    ensures cell { IfOk result (λ k. IsCellOf (grid_view grid.now) (sheet_view sheet.now) k.bytes.items k.tally) }
{
    fields_are_sound();
    truth_law();
    areas_begin_with_exteriors();
    answers_agree();
    cell_laws();
    let parts = sound_parts(alloc, grid, sheet)?;
    cell_of(alloc, parts)
}
