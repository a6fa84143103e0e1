// Pointers of features to nodes and edges.
ghost use Rattle.boundary_arcs.specs.Edges.{HasSidesBelow};
ghost use Rattle.chart_compile.specs.Topology.{arcs_in, faces_in};
ghost use Rattle.built_parts.specs.Areas.{NamesArcs, area_pointers, exteriors, interiors, line_of, pointer_of, ring_pointers};
ghost use Rattle.built_parts.specs.Contents.{pointer};
ghost use Rattle.face_fill.specs.Views.{faces_view};
ghost use Rattle.std.specs.Prelude.{◌≡◌, ◌+◌, ◌<◌, ◌++◌, ◌∷◌, [], All, IfOk, OnOk, length};

use crate::topology::Topology;
use boundary_arcs::{Arc, Side};
use built_parts::EdgePlace;
use chart_model::Pointer;
use face_fill::Faces;
use ring_builder::{Part, Ring};
use s57_codes::code::{EDGE, EXTERIOR, FORWARD, HIDDEN, INTERIOR, NULL, REVERSE, SHOWN, TRUNCATED};
use std::alloc::{AllocError, Global};

// A pointer to a record of which nothing more is said.
fn plain(rcnm: u8, rcid: u32, ornt: u8) -> Pointer
    ensures { result ≡ pointer rcnm rcid ornt }
{
    Pointer {
        rcnm,
        rcid,
        ornt,
        usag: NULL,
        mask: NULL,
    }
}

/// A feature's only pointer.
pub(crate) fn only_pointer(
    alloc: Global,
    rcnm: u8,
    rcid: u32,
    ornt: u8,
) -> Result<Vec<Pointer>, AllocError>
    ensures { IfOk result (λ v. v.items ≡ pointer rcnm rcid ornt ∷ []) }
{
    let mut list = Vec::with_capacity(alloc, 1)?;
    list.push(plain(rcnm, rcid, ornt))?;
    Ok(list)
}

// Where an edge lies.
fn line_at(faces: &Faces, arc: &Arc) -> EdgePlace
    requires { HasSidesBelow (length (faces_view faces.now).classes) arc.now }
    ensures { result ≡ line_of (faces_view faces.now) arc.now.left arc.now.right }
{
    match (arc.left, arc.right) {
        (Side::Face(left), Side::Face(right)) => {
            if faces.block(left) == faces.block(right) {
                EdgePlace::Within
            } else {
                EdgePlace::Seam
            }
        }
        _ => EdgePlace::Border,
    }
}

// The pointer of an area to an edge on one of its rings, with USAG and MASK of S-57 Edition 3.1, Part 3, 7.6.8: where the
// data end, the edge is a boundary that the data limit cuts (USAG 3), which says already how it shows, so MASK is null;
// where only blocks meet, nothing is there to be seen, and the edge is masked.
fn pointer(topology: &Topology, part: Part, exterior: bool) -> Pointer
    requires { part.arc < length (arcs_in topology.now) }
    ensures { result ≡ pointer_of (faces_in topology.now) (arcs_in topology.now) exterior part }
{
    let usage = if exterior { EXTERIOR } else { INTERIOR };
    let (usag, mask) = match line_at(topology.faces, topology.arcs.arc(part.arc as usize)) {
        EdgePlace::Border => (TRUNCATED, NULL),
        EdgePlace::Seam => (usage, HIDDEN),
        EdgePlace::Within => (usage, SHOWN),
    };
    Pointer {
        rcnm: EDGE,
        rcid: part.arc + 1,
        ornt: if part.forward { FORWARD } else { REVERSE },
        usag,
        mask,
    }
}

fn put_ring(topology: &Topology, ring: &Ring, pointers: &mut Vec<Pointer>) -> Result<(), AllocError>
    requires { NamesArcs (arcs_in topology.now) ring.now }
    ensures { OnOk result (pointers.new.items ≡ pointers.old.items ++ ring_pointers (faces_in topology.now) (arcs_in topology.now) ring.now) }
{
    let parts = ring.parts.as_slice();
    for part in parts {
        pointers.push(pointer(topology, *part, ring.exterior))?;
    }
    Ok(())
}

fn put_exteriors(
    topology: &Topology,
    rings: &[Ring],
    pointers: &mut Vec<Pointer>,
) -> Result<(), AllocError>
    requires { All (NamesArcs (arcs_in topology.now)) rings.now }
    ensures { OnOk result (pointers.new.items ≡ pointers.old.items ++ exteriors (faces_in topology.now) (arcs_in topology.now) rings.now) }
{
    for ring in rings {
        if ring.exterior {
            put_ring(topology, ring, pointers)?;
        }
    }
    Ok(())
}

fn put_interiors(
    topology: &Topology,
    rings: &[Ring],
    pointers: &mut Vec<Pointer>,
) -> Result<(), AllocError>
    requires { All (NamesArcs (arcs_in topology.now)) rings.now }
    ensures { OnOk result (pointers.new.items ≡ pointers.old.items ++ interiors (faces_in topology.now) (arcs_in topology.now) rings.now) }
{
    for ring in rings {
        if !ring.exterior {
            put_ring(topology, ring, pointers)?;
        }
    }
    Ok(())
}

/// The pointers of an area ring by ring, exterior rings first.
pub(crate) fn area_pointers(
    alloc: Global,
    topology: &Topology,
    rings: &[Ring],
) -> Result<Vec<Pointer>, AllocError>
    requires { All (NamesArcs (arcs_in topology.now)) rings.now }
    ensures { IfOk result (λ v. v.items ≡ area_pointers (faces_in topology.now) (arcs_in topology.now) rings.now) }
{
    let mut pointers = Vec::new(alloc);
    put_exteriors(topology, rings, &mut pointers)?;
    put_interiors(topology, rings, &mut pointers)?;
    Ok(pointers)
}
