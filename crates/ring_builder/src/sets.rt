// The rings of all sets of faces, and of all faces.
ghost use Rattle.boundary_arcs.specs.Views.{arcs_view};
ghost use Rattle.ring_builder.specs.Parts.{numbers};
ghost use Rattle.ring_builder.specs.Rings.{BoundFaces, BoundSets, FacesHaveExteriors, HasRings, SetsHaveExteriors};
ghost use Rattle.std.specs.List.{range_with_len};
ghost use Rattle.std.specs.Prelude.{◌≡◌, ◌<◌, All, IfOk, length, map};

use crate::Ring;
use crate::cutting::cut_parts;
use crate::parts::list_parts;
use boundary_arcs::Arcs;
use exterior_laws::exterior_rings;
use mesh_laws::face_laws;
use ring_cutter::{Cutter, Hop};
use std::alloc::{AllocError, Global};

/// The rings of sets of faces, as of blocks, by the sets' numbers: `owners` has the number of the set of each face,
/// below `sets`. An edge with one set on both sides borders none. In the mesh that the edges are of, the rings of a set
/// have the directed boundary of its pieces as their segments, each once; and where that is the mesh of a field, each
/// set that has a piece has an exterior ring. It fails only for want of memory.
pub fn set_rings(
    alloc: Global,
    arcs: &Arcs,
    owners: &[u32],
    sets: u32,
) -> Result<Vec<Vec<Ring>>, AllocError>
    requires as_many { length owners.now ≡ (arcs_view arcs.now).faces }
    requires below { All (λ o. o < sets) owners.now }
    ensures rings { IfOk result (λ all. HasRings (arcs_view arcs.now).arcs (numbers owners.now) sets (map (λ v. v.items) all.items)) }
    ensures boundaries { IfOk result (λ all. BoundSets (arcs_view arcs.now).arcs (numbers owners.now) sets (map (λ v. v.items) all.items)) }
    ensures exterior { IfOk result (λ all. SetsHaveExteriors (arcs_view arcs.now).arcs (numbers owners.now) sets (map (λ v. v.items) all.items)) }
{
    face_laws();
    exterior_rings();
    let lists = list_parts(alloc, arcs, owners, sets as usize)?;
    // one cutter for all sets: its table has a place for each node, and one for each set would take sets times nodes
    let mut cutter = Cutter::new(alloc, arcs.nodes().len())?;
    let mut hops: Vec<Hop> = Vec::new(alloc);
    let mut all: Vec<Vec<Ring>> = Vec::with_capacity(alloc, lists.len())?;
    for parts in &lists {
        all.push(cut_parts(alloc, arcs, parts, &mut cutter, &mut hops)?)?;
    }
    Ok(all)
}

/// The number of each face for its owner.
fn own_numbers(alloc: Global, faces: u32) -> Result<Vec<u32>, AllocError>
    ensures { IfOk result (λ owners. owners.items ≡ range_with_len 0 faces) }
{
    (0..faces).collect(alloc)
}

/// The rings of all faces, by their numbers. In the mesh that the edges are of, the rings of a face have its directed
/// boundary as their segments, each once; and where that is the mesh of a field, at least one ring of each face is
/// exterior. It fails only for want of memory.
pub fn rings(alloc: Global, arcs: &Arcs) -> Result<Vec<Vec<Ring>>, AllocError>
    ensures rings { IfOk result (λ all. HasRings (arcs_view arcs.now).arcs (λ face. face) (arcs_view arcs.now).faces (map (λ v. v.items) all.items)) }
    ensures boundaries { IfOk result (λ all. BoundFaces (arcs_view arcs.now).arcs (arcs_view arcs.now).faces (map (λ v. v.items) all.items)) }
    ensures exterior { IfOk result (λ all. FacesHaveExteriors (arcs_view arcs.now).arcs (arcs_view arcs.now).faces (map (λ v. v.items) all.items)) }
{
    face_laws();
    exterior_rings();
    let faces = arcs.faces();
    let owners = own_numbers(alloc, faces)?;
    set_rings(alloc, arcs, &owners, faces)
}
