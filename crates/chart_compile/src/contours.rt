// Contours: one for each edge that a level draws.
ghost use Rattle.boundary_arcs.specs.Edges.{HasSidesBelow, arc_of};
ghost use Rattle.chart_compile.specs.Topology.{arcs_in, faces_in, levels_in};
ghost use Rattle.built_parts.specs.Contours.{contour_at, contour_contents, level_between, level_on, value_of};
ghost use Rattle.built_parts.specs.Contents.{Adds};
ghost use Rattle.face_fill.specs.Views.{faces_view};
ghost use Rattle.std.specs.Prelude.{◌≡◌, ◌+◌, ◌^◌, ◌<◌, ◌≤◌, IfOk, OnOk, length};

use crate::attributes::{depth_attribute, only_attribute};
use crate::features::{Features, Kind, NOT_SKIN};
use crate::pointers::only_pointer;
use crate::topology::Topology;
use boundary_arcs::{Arc, Side};
use chart_model::Attribute;
use face_fill::Faces;
use mesh_definitions::Class;
use s57_codes::code::{DEPCNT, EDGE, FORWARD, LINE, VALDCO};
use std::alloc::{AllocError, Global};

// The level that parts two bands next to each other: it has the deeper one's number.
fn level_between(a: Class, b: Class) -> Option<u32>
    ensures { result ≡ level_between a b }
{
    match (a, b) {
        (Class::Band(a), Class::Band(b)) if a.abs_diff(b) == 1 => Some(a.max(b)),
        _ => None,
    }
}

// The level of an edge between two faces of one block.
fn level_on(faces: &Faces, arc: &Arc) -> Option<u32>
    requires { HasSidesBelow (length (faces_view faces.now).classes) arc.now }
    ensures { result ≡ level_on (faces_view faces.now) arc.now.left arc.now.right }
{
    match (arc.left, arc.right) {
        (Side::Face(left), Side::Face(right)) => {
            if faces.block(left) == faces.block(right) {
                level_between(faces.class(left), faces.class(right))
            } else {
                None
            }
        }
        _ => None,
    }
}

fn value(alloc: Global, level: i32) -> Result<Vec<Attribute>, AllocError>
    ensures { IfOk result (λ v. v.items ≡ value_of level) }
{
    only_attribute(alloc, depth_attribute(alloc, VALDCO, level)?)
}

// Adds the contour along an edge, if a level draws it.
fn add_contour(
    alloc: Global,
    topology: &Topology,
    k: usize,
    features: &mut Features,
) -> Result<(), AllocError>
    requires there { k < length (arcs_in topology.now) }
    requires few { length features.old.list.items < 2 ^ 31 }
    ensures added { OnOk result (Adds (contour_at (levels_in topology.now) (faces_in topology.now) (arc_of (arcs_in topology.now) k) k) features.old.list.items features.new.list.items) }
    ensures same { features.new.agency ≡ features.old.agency }
{
    match level_on(topology.faces, topology.arcs.arc(k)) {
        Some(level) => {
            let kind = Kind {
                prim: LINE,
                grup: NOT_SKIN,
                objl: DEPCNT,
            };
            let attributes = value(alloc, topology.levels.level(level))?;
            let pointers = only_pointer(alloc, EDGE, k as u32 + 1, FORWARD)?;
            features.add(kind, attributes, pointers)
        }
        None => Ok(()),
    }
}

/// Adds a contour for each edge that a level draws, in the order of the edges.
pub(crate) fn add_contours(
    alloc: Global,
    topology: &Topology,
    features: &mut Features,
) -> Result<(), AllocError>
    requires { length features.old.list.items ≤ 2 ^ 30 }
    ensures added { OnOk result (Adds (contour_contents (levels_in topology.now) (faces_in topology.now) (arcs_in topology.now)) features.old.list.items features.new.list.items) }
    ensures grown { OnOk result (length features.new.list.items ≤ length features.old.list.items + length (arcs_in topology.now)) }
    ensures same { features.new.agency ≡ features.old.agency }
{
    for k in 0..topology.arcs.count() {
        add_contour(alloc, topology, k, features)?;
    }
    Ok(())
}
