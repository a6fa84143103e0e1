// The net of the drawn sub-segments of a generalised grid.
ghost use Rattle.std.specs.Prelude.{◌≡◌, ◌<◌, IfOk};
ghost use Rattle.boundary_arcs.specs.Nets.{AreLinesOf, all_drawn};
ghost use Rattle.mesh_definitions.specs.Mesh.{all_cells};
ghost use Rattle.mesh_definitions.specs.Pieces.{whole_mesh};
ghost use Rattle.face_fill.specs.Numbered.{AreFaces, face_in};
ghost use Rattle.face_fill.specs.Views.{faces_view};
ghost use Rattle.tri_mesh.specs.Cells.{all_of, block_in};
ghost use Rattle.tri_mesh.specs.Fields.{field_in};
ghost use Rattle.tri_mesh.specs.Views.{blocks_view};

use crate::chord_lines::add_chords;
use crate::link_parts::add_way;
use crate::net::Net;
use depth_rounding::Levels;
use face_fill::Faces;
use indexmap::IndexSet;
use mesh_definitions::Way;
use mesh_laws::{face_laws, piece_laws};
use shoal_buffer::Charted;
use std::alloc::{AllocError, Global};
use tri_mesh::Blocks;

// The drawn sub-segments of the mesh of a generalised grid, as lines between numbered points. It takes memory for these
// alone, and fails only for want of it. Time is linear in the triangles and their chords.
pub(crate) fn collect(
    alloc: Global,
    faces: &Faces,
    ch: &Charted,
    levels: &Levels,
    blocks: &Blocks,
) -> Result<Net, AllocError>
    requires fit { all_of (blocks_view blocks.now) ≡ all_cells (field_in ch.now levels.now) }
    requires faces { AreFaces (field_in ch.now levels.now) (block_in (blocks_view blocks.now)) (faces_view faces.now) }
    ensures { IfOk result (λ net. AreLinesOf net.points.keys net.lines.items (all_drawn (whole_mesh (field_in ch.now levels.now) (block_in (blocks_view blocks.now))) (face_in (field_in ch.now levels.now) (faces_view faces.now)))) }
{
    face_laws();
    piece_laws();
    let rows = ch.grid().rows();
    let cols = ch.grid().cols();
    let mut net = Net {
        points: IndexSet::new(alloc),
        lines: Vec::new(alloc),
    };
    add_way(&mut net, Way::Across, rows, cols - 1, faces, ch, levels)?;
    add_way(&mut net, Way::Down, rows - 1, cols, faces, ch, levels)?;
    add_way(&mut net, Way::Slant, rows - 1, cols - 1, faces, ch, levels)?;
    add_chords(&mut net, rows - 1, cols - 1, faces, ch, levels)?;
    Ok(net)
}
