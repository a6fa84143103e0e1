// Depth areas and unsurveyed areas: one for each face.
ghost use Rattle.chart_compile.specs.Topology.{arcs_in, faces_in, levels_in};
ghost use Rattle.mesh_definitions.specs.declared.Class.TheVariants.{Band};
ghost use Rattle.built_parts.specs.Areas.{NamesArcs, area_content, area_contents, attributes_of, object_of, rings_in};
ghost use Rattle.built_parts.specs.Contents.{Adds};
ghost use Rattle.built_parts.specs.Order.{AddsAreas};
ghost use Rattle.depth_rounding.specs.Views.{levels_view};
ghost use Rattle.face_fill.specs.Numbered.{class_of};
ghost use Rattle.std.specs.Prelude.{◌≡◌, ℕ, ◌+◌, ◌^◌, ◌<◌, ◌≤◌, ◌∷◌, [], All, IfOk, OnOk, length, map};

use crate::attributes::depth_attribute;
use crate::extent::Extent;
use crate::features::{Features, Kind};
use crate::pointers::area_pointers;
use crate::topology::Topology;
use chart_model::Attribute;
use depth_rounding::Levels;
use mesh_definitions::Class;
use ring_builder::{Ring, rings};
use s57_codes::code::{AREA, DEPARE, DRVAL1, DRVAL2, SKIN, UNSARE};
use std::alloc::{AllocError, Global};

// The attributes of a class.
fn attributes_of(
    alloc: Global,
    class: Class,
    levels: &Levels,
    extent: Extent,
) -> Result<Vec<Attribute>, AllocError>
    requires { (b : ℕ) → class ≡ Band b → b ≤ length (levels_view levels.now) }
    ensures { IfOk result (λ v. v.items ≡ attributes_of (levels_view levels.now) extent.least extent.greatest class) }
{
    let mut list = Vec::with_capacity(alloc, 2)?;
    if let Class::Band(band) = class {
        let (shoaler, deeper) = levels.range(band, extent.least, extent.greatest);
        list.push(depth_attribute(alloc, DRVAL1, shoaler)?)?;
        list.push(depth_attribute(alloc, DRVAL2, deeper)?)?;
    }
    Ok(list)
}

fn object_of(class: Class) -> u16
    ensures { result ≡ object_of class }
{
    match class {
        Class::Band(_) => DEPARE,
        Class::Unsurveyed => UNSARE,
    }
}

// Adds the depth or unsurveyed area of a face with these rings.
fn add_area(
    alloc: Global,
    topology: &Topology,
    extent: Extent,
    face: u32,
    rings: &[Ring],
    features: &mut Features,
) -> Result<(), AllocError>
    requires face { face < length (faces_in topology.now).classes }
    requires inside { All (NamesArcs (arcs_in topology.now)) rings.now }
    requires few { length features.old.list.items < 2 ^ 31 }
    ensures added { OnOk result (Adds (area_content (levels_in topology.now) extent.least extent.greatest (faces_in topology.now) (arcs_in topology.now) (class_of (faces_in topology.now) face) rings.now ∷ []) features.old.list.items features.new.list.items) }
    ensures same { features.new.agency ≡ features.old.agency }
{
    let class = topology.faces.class(face);
    let kind = Kind {
        prim: AREA,
        grup: SKIN,
        objl: object_of(class),
    };
    let attributes = attributes_of(alloc, class, topology.levels, extent)?;
    let pointers = area_pointers(alloc, topology, rings)?;
    features.add(kind, attributes, pointers)
}

// Adds an area for each face with its rings, in the order of their numbers.
fn add_each_area(
    alloc: Global,
    topology: &Topology,
    extent: Extent,
    rings: &[Vec<Ring>],
    features: &mut Features,
) -> Result<(), AllocError>
    requires as_many { length rings.now ≡ length (faces_in topology.now).classes }
    requires inside { (k : ℕ) → All (NamesArcs (arcs_in topology.now)) (rings_in (map (λ v. v.items) rings.now) k) }
    requires few { length features.old.list.items ≤ 2 ^ 30 }
    ensures added { OnOk result (Adds (area_contents (levels_in topology.now) extent.least extent.greatest (faces_in topology.now) (arcs_in topology.now) (map (λ v. v.items) rings.now)) features.old.list.items features.new.list.items) }
    ensures grown { OnOk result (length features.new.list.items ≤ length features.old.list.items + length rings.now) }
    ensures same { features.new.agency ≡ features.old.agency }
{
    for face in 0..rings.len() {
        add_area(alloc, topology, extent, face as u32, &rings[face], features)?;
    }
    Ok(())
}

/// Adds a depth or unsurveyed area for each face, in the order of their numbers.
pub(crate) fn add_areas(
    alloc: Global,
    topology: &Topology,
    extent: Extent,
    features: &mut Features,
) -> Result<(), AllocError>
    requires { length features.old.list.items ≤ 2 ^ 30 }
    ensures added { OnOk result (AddsAreas (levels_in topology.now) extent.least extent.greatest (faces_in topology.now) (arcs_in topology.now) features.old.list.items features.new.list.items) }
    ensures grown { OnOk result (length features.new.list.items ≤ length features.old.list.items + length (faces_in topology.now).classes) }
    ensures same { features.new.agency ≡ features.old.agency }
{
    let outlines = rings(alloc, topology.arcs)?;
    add_each_area(alloc, topology, extent, &outlines, features)
}
