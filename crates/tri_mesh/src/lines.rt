// Drawn links and chords near a point.
ghost use Rattle.std.specs.Prelude.{◌≡◌, ◌↔◌, ◌+◌, ◌<◌, ◌≤◌, IsTrue, Some, length};
ghost use Rattle.mesh_definitions.specs.Ground.{chords};
ghost use Rattle.mesh_definitions.specs.Mesh.{all_cells, first, second, surveyed};
ghost use Rattle.mesh_definitions.specs.declared.Way.TheVariants.{Across, Down, Slant};
ghost use Rattle.depth_grid.specs.Grid.{place};
ghost use Rattle.plane_geom.specs.Geom.{OnSome};
ghost use Rattle.shoal_buffer.specs.Views.{charted_view};
ghost use Rattle.tri_mesh.specs.Cells.{all_of, block_in};
ghost use Rattle.tri_mesh.specs.Fields.{field_in};
ghost use Rattle.tri_mesh.specs.Lines.{parts_kinds, is_link_drawn, DrawnAt, LinksDraw, CellDraws, RowDraws, NearDraws};
ghost use Rattle.tri_mesh.specs.Views.{blocks_view};

use crate::Blocks;
use crate::classes::class_in;
use crate::corners::bands;
use crate::links::{ends_of, place_of};
use crate::triangles::tri_beside;
use depth_rounding::Levels;
use mesh_definitions::{Link, Rect, Tri, Way};
use plane_geom::{Point, Seg, on_segment};
use shoal_buffer::Charted;

// Whether all nodes of a triangle have data.
fn is_surveyed(tri: Tri, ch: &Charted, levels: &Levels) -> bool
    requires row { tri.row + 1 < length (charted_view ch.now).grid.ys }
    requires col { tri.col + 1 < length (charted_view ch.now).grid.xs }
    ensures { result ≡ surveyed (field_in ch.now levels.now) tri }
{
    bands(tri, ch, levels).is_some()
}

// Whether two triangles differ in survey or in block.
fn differ(a: Tri, b: Tri, ch: &Charted, levels: &Levels, blocks: &Blocks) -> bool
    requires fit { all_of (blocks_view blocks.now) ≡ all_cells (field_in ch.now levels.now) }
    requires a_row { a.row + 1 < length (charted_view ch.now).grid.ys }
    requires a_col { a.col + 1 < length (charted_view ch.now).grid.xs }
    requires b_row { b.row + 1 < length (charted_view ch.now).grid.ys }
    requires b_col { b.col + 1 < length (charted_view ch.now).grid.xs }
    ensures { result ≡ parts_kinds (field_in ch.now levels.now) (block_in (blocks_view blocks.now)) (Some a) (Some b) }
{
    is_surveyed(a, ch, levels) != is_surveyed(b, ch, levels)
        || blocks.block_of(a.row, a.col) != blocks.block_of(b.row, b.col)
}

// Whether a link is drawn: where one of its sides is missing, or they differ in survey or in block. Each link of the mesh has
// a triangle on one side at least.
fn is_drawn(link: Link, ch: &Charted, levels: &Levels, blocks: &Blocks) -> bool
    requires fit { all_of (blocks_view blocks.now) ≡ all_cells (field_in ch.now levels.now) }
    ensures { result ≡ is_link_drawn (field_in ch.now levels.now) (block_in (blocks_view blocks.now)) link }
{
    let all = Rect {
        row: 0,
        col: 0,
        rows: ch.grid().rows() - 1,
        cols: ch.grid().cols() - 1,
    };
    match (tri_beside(all, link, true), tri_beside(all, link, false)) {
        (Some(right), Some(left)) => differ(right, left, ch, levels, blocks),
        (None, None) => false,
        _ => true,
    }
}

// Whether a point is on a link that is drawn.
fn on_link(link: Link, p: Point, ch: &Charted, levels: &Levels, blocks: &Blocks) -> bool
    requires fit { all_of (blocks_view blocks.now) ≡ all_cells (field_in ch.now levels.now) }
    requires first_row { (first link).row < length (charted_view ch.now).grid.ys }
    requires first_col { (first link).col < length (charted_view ch.now).grid.xs }
    requires second_row { (second link).row < length (charted_view ch.now).grid.ys }
    requires second_col { (second link).col < length (charted_view ch.now).grid.xs }
    ensures { IsTrue result ↔ DrawnAt (field_in ch.now levels.now) (block_in (blocks_view blocks.now)) p link }
{
    let ends = ends_of(link);
    let lies = Seg {
        a: place_of(ch.grid(), ends.a),
        b: place_of(ch.grid(), ends.b),
    };
    if !on_segment(lies, p) {
        return false;
    }
    is_drawn(link, ch, levels, blocks)
}

fn across(row: usize, col: usize) -> Link
    ensures { result ≡ record { way = Across; row = row; col = col } }
{
    Link {
        way: Way::Across,
        row,
        col,
    }
}

fn down(row: usize, col: usize) -> Link
    ensures { result ≡ record { way = Down; row = row; col = col } }
{
    Link {
        way: Way::Down,
        row,
        col,
    }
}

fn slant(row: usize, col: usize) -> Link
    ensures { result ≡ record { way = Slant; row = row; col = col } }
{
    Link {
        way: Way::Slant,
        row,
        col,
    }
}

// Whether a point is on one of the links of a cell that are drawn.
fn on_links(
    row: usize,
    col: usize,
    p: Point,
    ch: &Charted,
    levels: &Levels,
    blocks: &Blocks,
) -> bool
    requires fit { all_of (blocks_view blocks.now) ≡ all_cells (field_in ch.now levels.now) }
    requires row { row + 1 < length (charted_view ch.now).grid.ys }
    requires col { col + 1 < length (charted_view ch.now).grid.xs }
    ensures { IsTrue result ↔ LinksDraw (field_in ch.now levels.now) (block_in (blocks_view blocks.now)) p row col }
{
    if on_link(across(row, col), p, ch, levels, blocks) {
        return true;
    }
    if on_link(down(row, col), p, ch, levels, blocks) {
        return true;
    }
    if on_link(slant(row, col), p, ch, levels, blocks) {
        return true;
    }
    if on_link(across(row + 1, col), p, ch, levels, blocks) {
        return true;
    }
    on_link(down(row, col + 1), p, ch, levels, blocks)
}

// Whether a point is on one of the chords of a triangle.
fn on_chord(tri: Tri, p: Point, ch: &Charted, levels: &Levels) -> bool
    requires row { tri.row + 1 < length (charted_view ch.now).grid.ys }
    requires col { tri.col + 1 < length (charted_view ch.now).grid.xs }
    ensures { IsTrue result ↔ OnSome (chords (field_in ch.now levels.now) tri) p }
{
    match class_in(tri, p, ch, levels) {
        Some(_) => false,
        None => true,
    }
}

// Whether a point is on a drawn link or a chord of a cell.
fn in_cell(row: usize, col: usize, p: Point, ch: &Charted, levels: &Levels, blocks: &Blocks) -> bool
    requires fit { all_of (blocks_view blocks.now) ≡ all_cells (field_in ch.now levels.now) }
    requires row { row + 1 < length (charted_view ch.now).grid.ys }
    requires col { col + 1 < length (charted_view ch.now).grid.xs }
    ensures { IsTrue result ↔ CellDraws (field_in ch.now levels.now) (block_in (blocks_view blocks.now)) p row col }
{
    if on_links(row, col, p, ch, levels, blocks) {
        return true;
    }
    if on_chord(
        Tri {
            row,
            col,
            upper: true,
        },
        p,
        ch,
        levels,
    ) {
        return true;
    }
    on_chord(
        Tri {
            row,
            col,
            upper: false,
        },
        p,
        ch,
        levels,
    )
}

// Whether a cell's western side has a point's longitude, and a cell lies beyond.
fn meets_west(ch: &Charted, col: usize, p: Point) -> bool
    requires col { col + 1 < length (charted_view ch.now).grid.xs }
    ensures { IsTrue result ↔ ((1 ≤ col) × (place (charted_view ch.now).grid.xs col ≡ p.x)) }
{
    if col == 0 {
        return false;
    }
    ch.grid().x(col) == p.x
}

// Whether a cell's northern side has a point's latitude, and a cell lies beyond.
fn meets_north(ch: &Charted, row: usize, p: Point) -> bool
    requires row { row + 1 < length (charted_view ch.now).grid.ys }
    ensures { IsTrue result ↔ ((1 ≤ row) × (place (charted_view ch.now).grid.ys row ≡ p.y)) }
{
    if row == 0 {
        return false;
    }
    ch.grid().y(row) == p.y
}

// Whether a point is on a line of a cell that has it, or of the one to the west where that has it too.
fn in_row(row: usize, col: usize, p: Point, ch: &Charted, levels: &Levels, blocks: &Blocks) -> bool
    requires fit { all_of (blocks_view blocks.now) ≡ all_cells (field_in ch.now levels.now) }
    requires row { row + 1 < length (charted_view ch.now).grid.ys }
    requires col { col + 1 < length (charted_view ch.now).grid.xs }
    ensures { IsTrue result ↔ RowDraws (field_in ch.now levels.now) (block_in (blocks_view blocks.now)) p row col }
{
    if in_cell(row, col, p, ch, levels, blocks) {
        return true;
    }
    if !meets_west(ch, col, p) {
        return false;
    }
    in_cell(row, col - 1, p, ch, levels, blocks)
}

// Whether a point is on a line of a cell that has it, or of those to the north and west that have it too.
pub(crate) fn lines_near(
    row: usize,
    col: usize,
    p: Point,
    ch: &Charted,
    levels: &Levels,
    blocks: &Blocks,
) -> bool
    requires fit { all_of (blocks_view blocks.now) ≡ all_cells (field_in ch.now levels.now) }
    requires row { row + 1 < length (charted_view ch.now).grid.ys }
    requires col { col + 1 < length (charted_view ch.now).grid.xs }
    ensures { IsTrue result ↔ NearDraws (field_in ch.now levels.now) (block_in (blocks_view blocks.now)) p row col }
{
    if in_row(row, col, p, ch, levels, blocks) {
        return true;
    }
    if !meets_north(ch, row, p) {
        return false;
    }
    in_row(row - 1, col, p, ch, levels, blocks)
}
