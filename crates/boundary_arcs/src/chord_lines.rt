// Adding the chords of triangles to a net.
ghost use Rattle.std.specs.Prelude.{◌≡◌, ◌+◌, ◌<◌, ◌≤◌, ◌∷◌, [], true, false, Some, length, OnOk};
ghost use Rattle.boundary_arcs.specs.Collecting.{Adds, Crosses, Fits, HasRoom, cells_drawn, chord_seen, chords_drawn, tri_drawn};
ghost use Rattle.face_fill.specs.Numbered.{first_band};
ghost use Rattle.face_fill.specs.Views.{faces_view};
ghost use Rattle.shoal_buffer.specs.Views.{charted_view};
ghost use Rattle.tri_mesh.specs.Fields.{field_in};

use crate::net::{Drawn, Net};
use crate::net_lines::add;
use depth_rounding::Levels;
use face_fill::Faces;
use mesh_definitions::Tri;
use shoal_buffer::Charted;
use std::alloc::AllocError;
use tri_mesh::{chord, pieces};

// Adds the chord of a level in a triangle whose first piece has the band `first`. There is such a chord, since the level
// crosses the triangle: its deep side, the piece of band k, is on its right.
fn add_chord(
    net: &mut Net,
    tri: Tri,
    first: u32,
    k: u32,
    faces: &Faces,
    ch: &Charted,
    levels: &Levels,
) -> Result<(), AllocError>
    requires fits { Fits (field_in ch.now levels.now) (faces_view faces.now) }
    requires row { tri.row + 1 < length (charted_view ch.now).grid.ys }
    requires col { tri.col + 1 < length (charted_view ch.now).grid.xs }
    requires first { first ≡ first_band (field_in ch.now levels.now) tri }
    requires crosses { Crosses (field_in ch.now levels.now) tri k }
    requires room { HasRoom 1 net.old }
    ensures { OnOk result (Adds 1 net.old net.new (chord_seen (field_in ch.now levels.now) (faces_view faces.now) tri k ∷ [])) }
{
    let seg = chord(tri, k, ch, levels).unwrap();
    let left = Some(faces.face_of(tri, k - 1 - first));
    let right = Some(faces.face_of(tri, k - first));
    add(net, Drawn { seg, left, right })
}

// Adds the chords of a triangle, at most one for each of 20 levels.
fn add_tri(
    net: &mut Net,
    tri: Tri,
    faces: &Faces,
    ch: &Charted,
    levels: &Levels,
) -> Result<(), AllocError>
    requires fits { Fits (field_in ch.now levels.now) (faces_view faces.now) }
    requires row { tri.row + 1 < length (charted_view ch.now).grid.ys }
    requires col { tri.col + 1 < length (charted_view ch.now).grid.xs }
    requires room { HasRoom 20 net.old }
    ensures { OnOk result (Adds 20 net.old net.new (tri_drawn (field_in ch.now levels.now) (faces_view faces.now) tri)) }
{
    if faces.piece_count(tri) == 1 {
        return Ok(());
    }
    let pieces = pieces(tri, ch, levels);
    let first = pieces.first;
    for i in 0..pieces.count - 1 {
        add_chord(net, tri, first, first + 1 + i, faces, ch, levels)?;
    }
    Ok(())
}

// Adds the chords of a row of cells: at most 1,024 cells of two triangles.
fn add_cells(
    net: &mut Net,
    row: usize,
    cols: usize,
    faces: &Faces,
    ch: &Charted,
    levels: &Levels,
) -> Result<(), AllocError>
    requires fits { Fits (field_in ch.now levels.now) (faces_view faces.now) }
    requires row { row + 1 < length (charted_view ch.now).grid.ys }
    requires cols { cols < length (charted_view ch.now).grid.xs }
    requires few { cols ≤ 1024 }
    requires room { HasRoom 40960 net.old }
    ensures { OnOk result (Adds 40960 net.old net.new (cells_drawn (field_in ch.now levels.now) (faces_view faces.now) cols row)) }
{
    for col in 0..cols {
        let upper = Tri {
            row,
            col,
            upper: true,
        };
        let lower = Tri {
            row,
            col,
            upper: false,
        };
        add_tri(net, upper, faces, ch, levels)?;
        add_tri(net, lower, faces, ch, levels)?;
    }
    Ok(())
}

// Adds the chords of all triangles, in at most 1,024 rows of cells.
pub(crate) fn add_chords(
    net: &mut Net,
    rows: usize,
    cols: usize,
    faces: &Faces,
    ch: &Charted,
    levels: &Levels,
) -> Result<(), AllocError>
    requires fits { Fits (field_in ch.now levels.now) (faces_view faces.now) }
    requires rows { rows < length (charted_view ch.now).grid.ys }
    requires cols { cols < length (charted_view ch.now).grid.xs }
    requires few_rows { rows ≤ 1024 }
    requires few_cols { cols ≤ 1024 }
    requires room { HasRoom 41943040 net.old }
    ensures { OnOk result (Adds 41943040 net.old net.new (chords_drawn (field_in ch.now levels.now) (faces_view faces.now) rows cols)) }
{
    for row in 0..rows {
        add_cells(net, row, cols, faces, ch, levels)?;
    }
    Ok(())
}
