// Cutting the parts that border a set into rings.
ghost use Rattle.boundary_arcs.specs.Views.{arcs_view};
ghost use Rattle.mesh_definitions.specs.Rings.{is_exterior};
ghost use Rattle.ring_builder.specs.Lists.{AreCut, HavePlaces, IsPart, part_at};
ghost use Rattle.ring_builder.specs.Parts.{hop_of};
ghost use Rattle.ring_builder.specs.Rings.{ring_segments};
ghost use Rattle.std.specs.Prelude.{◌≡◌, ◌≤◌, ◌<◌, ◌^◌, All, IfOk, OnOk, length, map};
ghost use Rattle.ring_cutter.specs.Rings.{IsBalanced};

use crate::areas::area;
use crate::{Part, Ring};
use boundary_arcs::Arcs;
use chart_model::Items;
use ring_cutter::{Cutter, Hop};
use std::alloc::{AllocError, Global};

fn hop(arcs: &Arcs, part: Part) -> Hop
    requires { IsPart (arcs_view arcs.now).arcs part }
    ensures { result ≡ hop_of (arcs_view arcs.now).arcs part }
{
    let arc = arcs.arc(part.arc as usize);
    let begin = arc.begin as usize;
    let end = arc.end as usize;
    if part.forward {
        Hop { begin, end }
    } else {
        Hop {
            begin: end,
            end: begin,
        }
    }
}

/// Replaces the hops by those of the parts. The list is lent, so that one serves all sets.
fn put_hops(arcs: &Arcs, parts: &[Part], hops: &mut Vec<Hop>) -> Result<(), AllocError>
    requires { All (IsPart (arcs_view arcs.now).arcs) parts.now }
    ensures { OnOk result (hops.new.items ≡ map (hop_of (arcs_view arcs.now).arcs) parts.now) }
{
    hops.clear();
    for part in parts {
        hops.push(hop(arcs, *part))?;
    }
    Ok(())
}

/// The parts at some places of a list.
fn pick(alloc: Global, parts: &[Part], places: &[usize]) -> Result<Vec<Part>, AllocError>
    requires { All (λ i. i < length parts.now) places.now }
    ensures { IfOk result (λ picked. picked.items ≡ map (part_at parts.now) places.now) }
{
    let mut picked: Vec<Part> = Vec::with_capacity(alloc, places.len())?;
    for i in places {
        picked.push(parts[*i])?;
    }
    Ok(picked)
}

/// The ring of the parts at some places of a list.
fn ring_of(alloc: Global, arcs: &Arcs, parts: &[Part], places: &[usize]) -> Result<Ring, AllocError>
    requires known { All (IsPart (arcs_view arcs.now).arcs) parts.now }
    requires inside { All (λ i. i < length parts.now) places.now }
    requires few { length places.now ≤ 2 ^ 27 }
    ensures parts { IfOk result (λ r. r.parts ≡ map (part_at parts.now) places.now) }
    ensures exterior { IfOk result (λ r. r.exterior ≡ is_exterior (ring_segments (arcs_view arcs.now).arcs r)) }
{
    let picked = pick(alloc, parts, places)?;
    let exterior = area(arcs, &picked) > 0;
    Ok(Ring {
        exterior,
        parts: Items::over(picked),
    })
}

/// The rings of the parts at the places of each list.
fn rings_at(
    alloc: Global,
    arcs: &Arcs,
    parts: &[Part],
    cut: &[Vec<usize>],
) -> Result<Vec<Ring>, AllocError>
    requires known { All (IsPart (arcs_view arcs.now).arcs) parts.now }
    requires inside { All (λ places. All (λ i. i < length parts.now) places.items) cut.now }
    requires few { All (λ places. length places.items ≤ 2 ^ 27) cut.now }
    ensures { IfOk result (λ rings. HavePlaces (arcs_view arcs.now).arcs parts.now (map (λ places. places.items) cut.now) rings.items) }
{
    let mut rings: Vec<Ring> = Vec::with_capacity(alloc, cut.len())?;
    for places in cut {
        rings.push(ring_of(alloc, arcs, parts, places)?)?;
    }
    Ok(rings)
}

/// Cuts parts into rings. At each node as many of them have to leave as arrive.
pub(crate) fn cut_parts(
    alloc: Global,
    arcs: &Arcs,
    parts: &[Part],
    cutter: &mut Cutter,
    hops: &mut Vec<Hop>,
) -> Result<Vec<Ring>, AllocError>
    requires known { All (IsPart (arcs_view arcs.now).arcs) parts.now }
    requires few { length parts.now ≤ 2 ^ 27 }
    requires balanced { IsBalanced (map (hop_of (arcs_view arcs.now).arcs) parts.now) cutter.old }
    ensures rings { IfOk result (λ rings. AreCut (arcs_view arcs.now).arcs parts.now rings.items) }
    ensures kept { OnOk result (cutter.new ≡ cutter.old) }
{
    put_hops(arcs, parts, hops)?;
    let cut = cutter.cut_into_rings(alloc, hops)?;
    rings_at(alloc, arcs, parts, &cut)
}
