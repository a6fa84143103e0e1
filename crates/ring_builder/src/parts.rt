// The edges that border each set of faces.
ghost use Rattle.boundary_arcs.specs.Edges.{HasSidesBelow};
ghost use Rattle.boundary_arcs.specs.Views.{arcs_view};
ghost use Rattle.ring_builder.specs.Lists.{Adds, AreEmpty, HasParts, IsBelow};
ghost use Rattle.ring_builder.specs.Parts.{is_set, numbers, owner_on, parts_at};
ghost use Rattle.std.specs.Prelude.{◌≡◌, ℕ, ◌<◌, ◌∷◌, [], All, IfOk, OnOk, cond, length, map};

use crate::Part;
use boundary_arcs::{Arc, Arcs, Side};
use std::alloc::{AllocError, Global};

/// The number of the set on a side, none outside.
fn owner_of(owners: &[u32], side: Side) -> Option<u32>
    requires { (face : ℕ) → side ≡ Side.Face face → face < length owners.now }
    ensures { result ≡ owner_on (numbers owners.now) side }
{
    match side {
        Side::Outside => None,
        Side::Face(face) => Some(owners[face as usize]),
    }
}

/// Puts a part at the end of the list of the set with a number, if there is one.
fn put(lists: &mut Vec<Vec<Part>>, owner: Option<u32>, part: Part) -> Result<(), AllocError>
    requires { IsBelow (length lists.old.items) owner }
    ensures { OnOk result (Adds (λ k. cond (is_set k owner) (part ∷ []) []) (map (λ v. v.items) lists.old.items) (map (λ v. v.items) lists.new.items)) }
{
    match owner {
        None => Ok(()),
        Some(k) => {
            lists[k as usize].push(part)?;
            Ok(())
        }
    }
}

/// Puts an edge at the end of the list of each set that it borders.
fn put_arc(
    lists: &mut Vec<Vec<Part>>,
    owners: &[u32],
    arc: &Arc,
    number: u32,
) -> Result<(), AllocError>
    requires known { HasSidesBelow (length owners.now) arc.now }
    requires below { All (λ o. o < length lists.old.items) owners.now }
    ensures { OnOk result (Adds (λ k. parts_at (numbers owners.now) k arc.now number) (map (λ v. v.items) lists.old.items) (map (λ v. v.items) lists.new.items)) }
{
    let right = owner_of(owners, arc.right);
    let left = owner_of(owners, arc.left);
    // within a set an edge parts nothing
    if right == left {
        return Ok(());
    }
    let forth = Part {
        arc: number,
        forward: true,
    };
    let back = Part {
        arc: number,
        forward: false,
    };
    put(lists, right, forth)?;
    put(lists, left, back)
}

/// An empty list for each set.
fn empty_lists(alloc: Global, sets: usize) -> Result<Vec<Vec<Part>>, AllocError>
    ensures { IfOk result (λ lists. AreEmpty sets (map (λ v. v.items) lists.items)) }
{
    let mut lists: Vec<Vec<Part>> = Vec::with_capacity(alloc, sets)?;
    for _k in 0..sets {
        lists.push(Vec::new(alloc))?;
    }
    Ok(lists)
}

/// The parts that border each set, in the order of the edges. Each edge is looked at once.
pub(crate) fn list_parts(
    alloc: Global,
    arcs: &Arcs,
    owners: &[u32],
    sets: usize,
) -> Result<Vec<Vec<Part>>, AllocError>
    requires as_many { length owners.now ≡ (arcs_view arcs.now).faces }
    requires below { All (λ o. o < sets) owners.now }
    ensures { IfOk result (λ lists. HasParts (arcs_view arcs.now).arcs (numbers owners.now) sets (length (arcs_view arcs.now).arcs) (map (λ v. v.items) lists.items)) }
{
    let mut lists = empty_lists(alloc, sets)?;
    for n in 0..arcs.count() {
        put_arc(&mut lists, owners, arcs.arc(n), n as u32)?;
    }
    Ok(lists)
}
