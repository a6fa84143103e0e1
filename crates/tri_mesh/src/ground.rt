// The ground at a point.
ghost use Rattle.std.specs.Prelude.{◌≡◌, ◌≢◌, ◌↔◌, ◌⊎◌, ℤ, ◌+◌, ◌-◌, ◌<◌, ◌≤◌, ◌<ℤ◌, ◌≤ℤ◌, IsTrue, List, length};
ghost use Rattle.mesh_definitions.specs.Field.{InCoverage, field_of};
ghost use Rattle.mesh_definitions.specs.Ground.{IsGround, IsInTri};
ghost use Rattle.mesh_definitions.specs.Mesh.{all_cells};
ghost use Rattle.depth_grid.specs.Grid.{place};
ghost use Rattle.depth_grid.specs.Views.{grid_view};
ghost use Rattle.shoal_buffer.specs.Views.{charted_view};
ghost use Rattle.tri_mesh.specs.Cells.{all_of, block_in};
ghost use Rattle.tri_mesh.specs.Fields.{field_in};
ghost use Rattle.tri_mesh.specs.Lines.{OnDrawn, NearDraws};
ghost use Rattle.tri_mesh.specs.Views.{blocks_view};
ghost use Rattle.mesh_definitions.specs.declared.Class.{Class};
ghost use Rattle.tri_mesh.specs.declared.kinds.Ground.TheVariants.{Outside, Line, Inside};

use crate::classes::class_in;
use crate::lines::lines_near;
use crate::links::place_of;
use crate::{Blocks, Ground};
use depth_grid::{Grid, NodeId};
use depth_rounding::Levels;
use mesh_definitions::Tri;
use plane_geom::{Point, cross};
use plane_laws::line_sides;
use shoal_buffer::Charted;

// Whether a point is in the closed rectangle of the outermost nodes.
fn covers(ch: &Charted, p: Point) -> bool
    ensures { (levels : List ℤ) → IsTrue result ↔ InCoverage (field_of (charted_view ch.now) levels) p }
{
    let grid = ch.grid();
    if p.x < grid.x(0) || grid.x(grid.cols() - 1) < p.x {
        return false;
    }
    if p.y < grid.y(grid.rows() - 1) || grid.y(0) < p.y {
        return false;
    }
    true
}

// The column of cells that has x, the eastern one of two.
fn column_of(grid: &Grid, x: i32) -> usize
    requires west { place (grid_view grid.now).xs 0 ≤ℤ x }
    requires east { x ≤ℤ place (grid_view grid.now).xs (length (grid_view grid.now).xs - 1) }
    ensures known { result + 1 < length (grid_view grid.now).xs }
    ensures west { place (grid_view grid.now).xs result ≤ℤ x }
    ensures east { x ≤ℤ place (grid_view grid.now).xs (result + 1) }
    ensures eastern { (result + 2 ≡ length (grid_view grid.now).xs) ⊎ (x <ℤ place (grid_view grid.now).xs (result + 1)) }
{
    let mut first = 0;
    let mut end = grid.cols() - 1;
    while end - first > 1 {
        let middle = first + (end - first) / 2;
        if grid.x(middle) <= x {
            first = middle;
        } else {
            end = middle;
        }
    }
    first
}

// The row of cells that has y, the southern one of two.
fn row_of(grid: &Grid, y: i32) -> usize
    requires north { y ≤ℤ place (grid_view grid.now).ys 0 }
    requires south { place (grid_view grid.now).ys (length (grid_view grid.now).ys - 1) ≤ℤ y }
    ensures known { result + 1 < length (grid_view grid.now).ys }
    ensures north { y ≤ℤ place (grid_view grid.now).ys result }
    ensures south { place (grid_view grid.now).ys (result + 1) ≤ℤ y }
    ensures southern { (result + 2 ≡ length (grid_view grid.now).ys) ⊎ (place (grid_view grid.now).ys (result + 1) <ℤ y) }
{
    let mut first = 0;
    let mut end = grid.rows() - 1;
    while end - first > 1 {
        let middle = first + (end - first) / 2;
        if y <= grid.y(middle) {
            first = middle;
        } else {
            end = middle;
        }
    }
    first
}

// The triangle of a cell that has a point, the upper one of two.
fn tri_at(ch: &Charted, row: usize, col: usize, p: Point) -> Tri
    requires row { row + 1 < length (charted_view ch.now).grid.ys }
    requires col { col + 1 < length (charted_view ch.now).grid.xs }
    requires west { place (charted_view ch.now).grid.xs col ≤ℤ p.x }
    requires east { p.x ≤ℤ place (charted_view ch.now).grid.xs (col + 1) }
    requires north { p.y ≤ℤ place (charted_view ch.now).grid.ys row }
    requires south { place (charted_view ch.now).grid.ys (row + 1) ≤ℤ p.y }
    ensures row { result.row ≡ row }
    ensures col { result.col ≡ col }
    ensures has { (levels : List ℤ) → IsInTri (field_of (charted_view ch.now) levels) result p }
{
    line_sides();
    let grid = ch.grid();
    let south_west = place_of(grid, NodeId { row: row + 1, col });
    let north_east = place_of(grid, NodeId { row, col: col + 1 });
    if cross(south_west, north_east, p) >= 0 {
        Tri {
            row,
            col,
            upper: true,
        }
    } else {
        Tri {
            row,
            col,
            upper: false,
        }
    }
}

// The ground at a point of a cell: on a drawn line, or inside with the class of the piece that has it.
fn ground_in(
    row: usize,
    col: usize,
    p: Point,
    ch: &Charted,
    levels: &Levels,
    blocks: &Blocks,
) -> Ground
    requires fit { all_of (blocks_view blocks.now) ≡ all_cells (field_in ch.now levels.now) }
    requires row { row + 1 < length (charted_view ch.now).grid.ys }
    requires col { col + 1 < length (charted_view ch.now).grid.xs }
    requires west { place (charted_view ch.now).grid.xs col ≤ℤ p.x }
    requires east { p.x ≤ℤ place (charted_view ch.now).grid.xs (col + 1) }
    requires north { p.y ≤ℤ place (charted_view ch.now).grid.ys row }
    requires south { place (charted_view ch.now).grid.ys (row + 1) ≤ℤ p.y }
    ensures covered { result ≢ Outside }
    ensures line { result ≡ Line → OnDrawn (field_in ch.now levels.now) (block_in (blocks_view blocks.now)) p }
    ensures near { NearDraws (field_in ch.now levels.now) (block_in (blocks_view blocks.now)) p row col → result ≡ Line }
    ensures inside { (K : Class) → result ≡ Inside K → IsGround (field_in ch.now levels.now) p K }
{
    if lines_near(row, col, p, ch, levels, blocks) {
        return Ground::Line;
    }
    let tri = tri_at(ch, row, col, p);
    match class_in(tri, p, ch, levels) {
        Some(class) => Ground::Inside(class),
        None => Ground::Line,
    }
}

// The same at a point of the coverage.
fn ground_within(p: Point, ch: &Charted, levels: &Levels, blocks: &Blocks) -> Ground
    requires fit { all_of (blocks_view blocks.now) ≡ all_cells (field_in ch.now levels.now) }
    requires within { InCoverage (field_in ch.now levels.now) p }
    ensures covered { result ≢ Outside }
    ensures line { result ≡ Line ↔ OnDrawn (field_in ch.now levels.now) (block_in (blocks_view blocks.now)) p }
    ensures inside { (K : Class) → result ≡ Inside K → IsGround (field_in ch.now levels.now) p K }
{
    let row = row_of(ch.grid(), p.y);
    let col = column_of(ch.grid(), p.x);
    ground_in(row, col, p, ch, levels, blocks)
}

/// The ground at a point: outside the coverage, on a drawn line, or inside with the class of the piece that has it.
///
/// It finds the point's cell by halving and looks at the lines of the four cells at most that touch the point.
pub fn class_at(ch: &Charted, levels: &Levels, blocks: &Blocks, p: Point) -> Ground
    requires fit { all_of (blocks_view blocks.now) ≡ all_cells (field_in ch.now levels.now) }
    ensures outside { result ≡ Outside ↔ ¬ (InCoverage (field_in ch.now levels.now) p) }
    ensures line { result ≡ Line ↔ OnDrawn (field_in ch.now levels.now) (block_in (blocks_view blocks.now)) p }
    ensures inside { (K : Class) → result ≡ Inside K → IsGround (field_in ch.now levels.now) p K }
{
    if covers(ch, p) {
        ground_within(p, ch, levels, blocks)
    } else {
        Ground::Outside
    }
}
