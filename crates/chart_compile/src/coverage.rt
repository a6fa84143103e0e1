// Coverage and quality of data: meta objects of each block.
ghost use Rattle.chart_compile.specs.Topology.{arcs_in, faces_in};
ghost use Rattle.built_parts.specs.Areas.{NamesArcs, block_content, block_contents, coverage_contents, rings_in};
ghost use Rattle.built_parts.specs.Contents.{Adds};
ghost use Rattle.built_parts.specs.Order.{AddsGround};
ghost use Rattle.face_fill.specs.Views.{faces_view};
ghost use Rattle.std.specs.Prelude.{◌≡◌, ℕ, ◌+◌, ◌*◌, ◌^◌, ◌<◌, ◌≤◌, ◌∷◌, [], All, IfOk, IfSome, OnOk, length, map};

use crate::attributes::{attribute, only_attribute};
use crate::features::{Features, Kind, NOT_SKIN};
use crate::pointers::area_pointers;
use crate::topology::Topology;
use chart_model::Attribute;
use face_fill::Faces;
use ring_builder::{Ring, set_rings};
use s57_codes::code::{AREA, CATCOV, CATZOC, M_COVR, M_QUAL};
use std::alloc::{AllocError, Global};

// A meta object by its object code, and its one attribute: the code, and a value of one digit.
#[derive(Clone, Copy)]
struct Meta {
    objl: u16,
    code: u16,
    value: u8,
    ghost digit: { value < 10 },
}

// CATCOV 1: the data cover the block.
const COVERED: u8 = 1;

// The attribute of a meta object: its digit as a text.
fn attribute_of(alloc: Global, meta: Meta) -> Result<Attribute, AllocError>
    ensures { IfOk result (λ a. a ≡ record { code = meta.code; text = (48 + meta.value) ∷ [] }) }
{
    let mut text = Vec::with_capacity(alloc, 1)?;
    text.push(b'0' + meta.value)?;
    Ok(attribute(meta.code, text))
}

// Adds a meta object of a block with these rings.
fn add_meta(
    alloc: Global,
    topology: &Topology,
    meta: Meta,
    rings: &[Ring],
    features: &mut Features,
) -> Result<(), AllocError>
    requires inside { All (NamesArcs (arcs_in topology.now)) rings.now }
    requires few { length features.old.list.items < 2 ^ 31 }
    ensures added { OnOk result (Adds (block_content meta.objl meta.code meta.value (faces_in topology.now) (arcs_in topology.now) rings.now ∷ []) features.old.list.items features.new.list.items) }
    ensures same { features.new.agency ≡ features.old.agency }
{
    let kind = Kind {
        prim: AREA,
        grup: NOT_SKIN,
        objl: meta.objl,
    };
    let attributes = only_attribute(alloc, attribute_of(alloc, meta)?)?;
    let pointers = area_pointers(alloc, topology, rings)?;
    features.add(kind, attributes, pointers)
}

// Adds a meta object for each block with its rings, in the order of their numbers.
fn add_each_meta(
    alloc: Global,
    topology: &Topology,
    meta: Meta,
    rings: &[Vec<Ring>],
    features: &mut Features,
) -> Result<(), AllocError>
    requires inside { (k : ℕ) → All (NamesArcs (arcs_in topology.now)) (rings_in (map (λ v. v.items) rings.now) k) }
    requires blocks { length rings.now ≤ 2 ^ 20 }
    requires few { length features.old.list.items ≤ 2 ^ 30 }
    ensures added { OnOk result (Adds (block_contents meta.objl meta.code meta.value (faces_in topology.now) (arcs_in topology.now) (map (λ v. v.items) rings.now)) features.old.list.items features.new.list.items) }
    ensures grown { OnOk result (length features.new.list.items ≤ length features.old.list.items + length rings.now) }
    ensures same { features.new.agency ≡ features.old.agency }
{
    for block in 0..rings.len() {
        add_meta(alloc, topology, meta, &rings[block], features)?;
    }
    Ok(())
}

// Adds the coverage of each block with its rings and, where there is a category, its quality of data.
fn add_each_coverage(
    alloc: Global,
    topology: &Topology,
    quality: Option<u8>,
    rings: &[Vec<Ring>],
    features: &mut Features,
) -> Result<(), AllocError>
    requires digit { IfSome quality (λ zone. zone < 10) }
    requires inside { (k : ℕ) → All (NamesArcs (arcs_in topology.now)) (rings_in (map (λ v. v.items) rings.now) k) }
    requires blocks { length rings.now ≤ 2 ^ 20 }
    requires few { length features.old.list.items ≤ 2 ^ 29 }
    ensures added { OnOk result (Adds (coverage_contents quality (faces_in topology.now) (arcs_in topology.now) (map (λ v. v.items) rings.now)) features.old.list.items features.new.list.items) }
    ensures grown { OnOk result (length features.new.list.items ≤ length features.old.list.items + 2 * length rings.now) }
    ensures same { features.new.agency ≡ features.old.agency }
{
    let coverage = Meta {
        objl: M_COVR,
        code: CATCOV,
        value: COVERED,
    };
    add_each_meta(alloc, topology, coverage, rings, features)?;
    match quality {
        Some(value) => {
            let quality = Meta {
                objl: M_QUAL,
                code: CATZOC,
                value,
            };
            add_each_meta(alloc, topology, quality, rings, features)
        }
        None => Ok(()),
    }
}

// The block of each face.
fn blocks_of(alloc: Global, faces: &Faces) -> Result<Vec<u32>, AllocError>
    ensures { IfOk result (λ v. v.items ≡ (faces_view faces.now).blocks) }
{
    let mut list = Vec::with_capacity(alloc, faces.count() as usize)?;
    for face in 0..faces.count() {
        list.push(faces.block(face))?;
    }
    Ok(list)
}

/// Adds the coverage (M_COVR) of each block and, where the sheet has a category, its quality of data (M_QUAL).
pub(crate) fn add_coverage_and_quality(
    alloc: Global,
    topology: &Topology,
    quality: Option<u8>,
    features: &mut Features,
) -> Result<(), AllocError>
    requires digit { IfSome quality (λ zone. zone < 10) }
    requires few { length features.old.list.items ≤ 2 ^ 29 }
    ensures added { OnOk result (AddsGround quality (faces_in topology.now) (arcs_in topology.now) topology.now.blocks features.old.list.items features.new.list.items) }
    ensures grown { OnOk result (length features.new.list.items ≤ length features.old.list.items + 2 * topology.now.blocks) }
    ensures same { features.new.agency ≡ features.old.agency }
{
    let owners = blocks_of(alloc, topology.faces)?;
    let rings = set_rings(alloc, topology.arcs, &owners, topology.blocks)?;
    add_each_coverage(alloc, topology, quality, &rings, features)
}
