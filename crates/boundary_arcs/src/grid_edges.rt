// The edges of a generalised grid.
ghost use Rattle.std.specs.Prelude.{◌≡◌, length, IfOk};
ghost use Rattle.boundary_arcs.specs.Edges.{AreArcsOf};
ghost use Rattle.boundary_arcs.specs.Views.{arcs_view};
ghost use Rattle.mesh_definitions.specs.Mesh.{all_cells};
ghost use Rattle.mesh_definitions.specs.Pieces.{whole_mesh};
ghost use Rattle.face_fill.specs.Numbered.{AreFaces, face_in};
ghost use Rattle.face_fill.specs.Views.{faces_view};
ghost use Rattle.tri_mesh.specs.Cells.{all_of, block_in};
ghost use Rattle.tri_mesh.specs.Fields.{field_in};
ghost use Rattle.tri_mesh.specs.Views.{blocks_view};

use crate::Arcs;
use crate::chain_edges::assemble;
use crate::drawn_net::collect;
use depth_rounding::Levels;
use face_fill::Faces;
use mesh_laws::{face_laws, piece_laws};
use shoal_buffer::Charted;
use std::alloc::{AllocError, Global};
use tri_mesh::Blocks;

/// The edges of a generalised grid with the faces of its mesh: chains of drawn sub-segments, each from junction to
/// junction with none between, or closed. A closed edge with no junction begins at its least point by x and then y. Each
/// drawn sub-segment stands in one edge, once.
///
/// Time is linear in the mesh, but for the index that numbers points by where they lie. Memory is taken for what is
/// drawn alone, and nothing but want of it is answered.
pub fn arcs(
    alloc: Global,
    faces: &Faces,
    ch: &Charted,
    levels: &Levels,
    blocks: &Blocks,
) -> Result<Arcs, AllocError>
    requires fit { all_of (blocks_view blocks.now) ≡ all_cells (field_in ch.now levels.now) }
    requires faces { AreFaces (field_in ch.now levels.now) (block_in (blocks_view blocks.now)) (faces_view faces.now) }
    ensures faces { IfOk result (λ a. (arcs_view a).faces ≡ length (faces_view faces.now).classes) }
    ensures edges { IfOk result (λ a. AreArcsOf (whole_mesh (field_in ch.now levels.now) (block_in (blocks_view blocks.now))) (face_in (field_in ch.now levels.now) (faces_view faces.now)) (arcs_view a).arcs) }
{
    face_laws();
    piece_laws();
    let net = collect(alloc, faces, ch, levels, blocks)?;
    assemble(alloc, net, faces.count())
}
