// How the ground at a point is found.
ghost use Rattle.std.specs.Prelude.{◌≡◌, ◌≤◌, ℤ, IfOk, length};
ghost use Rattle.mesh_definitions.specs.Mesh.{all_cells};
ghost use Rattle.mesh_definitions.specs.Ranges.{IsRange};
ghost use Rattle.chart_ground.specs.Answers.{IsAnswer, IsGroundAt};
ghost use Rattle.depth_grid.specs.Views.{grid_view};
ghost use Rattle.depth_rounding.specs.Views.{levels_view};
ghost use Rattle.rule_sheet.specs.Views.{sheet_view};
ghost use Rattle.shoal_buffer.specs.Charted.{StandsIn};
ghost use Rattle.shoal_buffer.specs.Views.{charted_view};
ghost use Rattle.tri_mesh.specs.Cells.{all_of, block_in};
ghost use Rattle.tri_mesh.specs.Fields.{field_in};
ghost use Rattle.tri_mesh.specs.Views.{blocks_view};

use crate::GroundAt;
use depth_grid::Grid;
use depth_rounding::Levels;
use face_fill::by_need;
use plane_geom::Point;
use rule_sheet::Sheet;
use shoal_buffer::{Charted, generalise};
use std::alloc::{AllocError, Global};
use tri_mesh::{Blocks, Class, Ground, class_at};

// The range of depths of a band, where some node has a charted depth.
fn range_of(ch: &Charted, levels: &Levels, band: u32) -> (i32, i32)
    requires some { (x : ℤ) × StandsIn (charted_view ch.now).charted x }
    requires known { band ≤ length (levels_view levels.now) }
    ensures { IsRange (charted_view ch.now) (levels_view levels.now) band result.0 result.1 }
{
    match ch.extent() {
        Some((least, greatest)) => levels.range(band, least, greatest),
        None => unreachable!(),
    }
}

// What lies at a point of a generalised grid in blocks.
fn answer_at(ch: &Charted, levels: &Levels, blocks: &Blocks, p: Point) -> GroundAt
    requires { all_of (blocks_view blocks.now) ≡ all_cells (field_in ch.now levels.now) }
    ensures { IsAnswer (charted_view ch.now) (levels_view levels.now) (block_in (blocks_view blocks.now)) p result }
{
    match class_at(ch, levels, blocks, p) {
        Ground::Outside => GroundAt::Outside,
        Ground::Line => GroundAt::Edge,
        Ground::Inside(Class::Unsurveyed) => GroundAt::Unsurveyed,
        Ground::Inside(Class::Band(band)) => {
            let (shoaler, deeper) = range_of(ch, levels, band);
            GroundAt::Depth { shoaler, deeper }
        }
    }
}

/// What lies at a point by a grid and a sheet: the depths are generalised towards shoal by the sheet's disc and steps,
/// blocks are cut by need, and the answer is that of the piece of the mesh that has the point.
pub fn ground_at(
    alloc: Global,
    grid: &Grid,
    sheet: &Sheet,
    p: Point,
) -> Result<GroundAt, AllocError>
    ensures { IfOk result (λ a. IsGroundAt (grid_view grid.now) (sheet_view sheet.now) p a) }
{
    let ch = generalise(alloc, grid, &sheet.disc, &sheet.bands)?;
    let blocks = by_need(alloc, &ch, &sheet.levels)?;
    Ok(answer_at(&ch, &sheet.levels, &blocks, p))
}
