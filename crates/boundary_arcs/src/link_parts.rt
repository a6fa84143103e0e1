// Adding the drawn parts of links to a net.
ghost use Rattle.std.specs.Prelude.{◌≡◌, ℕ, ◌<◌, ◌≤◌, true, false, OnOk};
ghost use Rattle.boundary_arcs.specs.Collecting.{Adds, Fits, HasRoom, IsInField, if_drawn, link_at, link_drawn, row_drawn, seen_between, walk_along, way_drawn};
ghost use Rattle.mesh_definitions.specs.Mesh.{all_cells, right_tri};
ghost use Rattle.mesh_definitions.specs.Pieces.{part_ends};
ghost use Rattle.face_fill.specs.Views.{faces_view};
ghost use Rattle.tri_mesh.specs.Fields.{field_in};

use crate::link_sides::{face_beside, is_one_face, is_same, with_pieces};
use crate::net::{Drawn, Net};
use crate::net_lines::add;
use depth_rounding::Levels;
use face_fill::Faces;
use mesh_definitions::{Link, Rect, Tri, Way};
use shoal_buffer::Charted;
use std::alloc::AllocError;
use tri_mesh::{part, parts, tri_beside};

// Adds the part of a link in a band, with these faces on its sides, where it is drawn.
fn add_part(
    net: &mut Net,
    link: Link,
    band: u32,
    left: Option<u32>,
    right: Option<u32>,
    ch: &Charted,
    levels: &Levels,
) -> Result<(), AllocError>
    requires inside { IsInField (field_in ch.now levels.now) link }
    requires room { HasRoom 1 net.old }
    ensures { OnOk result (Adds 1 net.old net.new (if_drawn (seen_between (part_ends (field_in ch.now levels.now) link band) left right))) }
{
    if is_same(left, right) {
        return Ok(());
    }
    let seg = part(link, band, ch, levels);
    add(net, Drawn { seg, left, right })
}

// Adds the drawn parts of a link between two triangles.
fn add_between(
    net: &mut Net,
    link: Link,
    left: Option<Tri>,
    right: Option<Tri>,
    faces: &Faces,
    ch: &Charted,
    levels: &Levels,
) -> Result<(), AllocError>
    requires fits { Fits (field_in ch.now levels.now) (faces_view faces.now) }
    requires inside { IsInField (field_in ch.now levels.now) link }
    requires left { left ≡ right_tri (all_cells (field_in ch.now levels.now)) (walk_along link false) }
    requires right { right ≡ right_tri (all_cells (field_in ch.now levels.now)) (walk_along link true) }
    requires room { HasRoom 21 net.old }
    ensures { OnOk result (Adds 21 net.old net.new (link_drawn (field_in ch.now levels.now) (faces_view faces.now) link)) }
{
    let parts = parts(link, ch, levels);
    let left = with_pieces(left, ch, levels);
    let right = with_pieces(right, ch, levels);
    for i in 0..parts.count {
        let band = parts.first + i;
        let left_face = face_beside(left, band, faces);
        let right_face = face_beside(right, band, faces);
        add_part(net, link, band, left_face, right_face, ch, levels)?;
    }
    Ok(())
}

// Adds the drawn parts of a link. A link within a face is left at once.
fn add_link(
    net: &mut Net,
    link: Link,
    faces: &Faces,
    ch: &Charted,
    levels: &Levels,
) -> Result<(), AllocError>
    requires fits { Fits (field_in ch.now levels.now) (faces_view faces.now) }
    requires inside { IsInField (field_in ch.now levels.now) link }
    requires room { HasRoom 21 net.old }
    ensures { OnOk result (Adds 21 net.old net.new (link_drawn (field_in ch.now levels.now) (faces_view faces.now) link)) }
{
    let grid = ch.grid();
    let rows = grid.rows() - 1;
    let cols = grid.cols() - 1;
    let all = Rect {
        row: 0,
        col: 0,
        rows,
        cols,
    };
    let left = tri_beside(all, link, false);
    let right = tri_beside(all, link, true);
    if is_one_face(left, right, faces) {
        return Ok(());
    }
    add_between(net, link, left, right, faces, ch, levels)
}

// Adds the drawn parts of the links of one way in a row: at most 1,025 links of 21 parts.
fn add_row(
    net: &mut Net,
    way: Way,
    row: usize,
    cols: usize,
    faces: &Faces,
    ch: &Charted,
    levels: &Levels,
) -> Result<(), AllocError>
    requires fits { Fits (field_in ch.now levels.now) (faces_view faces.now) }
    requires few { cols ≤ 1025 }
    requires inside { (j : ℕ) → j < cols → IsInField (field_in ch.now levels.now) (link_at way row j) }
    requires room { HasRoom 21525 net.old }
    ensures { OnOk result (Adds 21525 net.old net.new (row_drawn (field_in ch.now levels.now) (faces_view faces.now) way cols row)) }
{
    for col in 0..cols {
        add_link(net, Link { way, row, col }, faces, ch, levels)?;
    }
    Ok(())
}

// Adds the drawn parts of the links of one way, in at most 1,025 rows.
pub(crate) fn add_way(
    net: &mut Net,
    way: Way,
    rows: usize,
    cols: usize,
    faces: &Faces,
    ch: &Charted,
    levels: &Levels,
) -> Result<(), AllocError>
    requires fits { Fits (field_in ch.now levels.now) (faces_view faces.now) }
    requires few_rows { rows ≤ 1025 }
    requires few_cols { cols ≤ 1025 }
    requires inside { (i j : ℕ) → i < rows → j < cols → IsInField (field_in ch.now levels.now) (link_at way i j) }
    requires room { HasRoom 22063125 net.old }
    ensures { OnOk result (Adds 22063125 net.old net.new (way_drawn (field_in ch.now levels.now) (faces_view faces.now) way rows cols)) }
{
    for row in 0..rows {
        add_row(net, way, row, cols, faces, ch, levels)?;
    }
    Ok(())
}
