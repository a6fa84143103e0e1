//! Cutting of directed arcs into closed rings that pass no point twice. Each arc is first paired with one that goes on
//! where it ends; then the arcs are walked, and the walk is cut wherever it comes back to a point. Both take time
//! linear in the arcs.
#![tactic(auto)]

ghost use Rattle.std.specs.Prelude.{◌≡◌, ℕ, ◌<◌, ◌≤◌, ◌+◌, List, Option, None, true, false, length, IfOk, OnOk, vec_len, map, slice_index, slice_index_or, []};
ghost use Rattle.ring_cutter.specs.Rings.{begins, ends, IsBalanced, CutsIntoRings};
ghost use Rattle.ring_cutter.specs.Cutting.{AreInside, Clears, Closes, IsBlank, Lists, GoesOn, IsUsed, Rests};

mod ring_cutter;

pub use ring_cutter::Cutter;
use std::alloc::{AllocError, Global};

/// A directed arc between two points, which are numbers.
#[derive(Clone, Copy)]
pub struct Hop {
    /// The point that it leaves.
    pub begin: usize,
    /// The point that it comes to.
    pub end: usize,
}

/// Where arc `a` begins.
fn begin_of(hops: &[Hop], a: usize) -> usize
    requires { a < length hops.now }
    ensures { result ≡ begins hops.now a }
{
    hops[a].begin
}

/// Where arc `a` ends.
fn end_of(hops: &[Hop], a: usize) -> usize
    requires { a < length hops.now }
    ensures { result ≡ ends hops.now a }
{
    hops[a].end
}

/// Links the arcs that begin at each point: `first` gets the first of each, and the answer has the next after each arc.
fn list_leaving(
    alloc: Global,
    hops: &[Hop],
    first: &mut Vec<Option<usize>>,
) -> Result<Vec<Option<usize>>, AllocError>
    requires balanced { IsBalanced hops.now (length first.old.items) }
    requires blank { IsBlank (length first.old.items) first.old.items }
    ensures { IfOk result (λ next. Lists (begins hops.now) (length first.old.items) (length hops.now) first.new.items next.items) }
{
    let mut next: Vec<Option<usize>> = Vec::with_capacity(alloc, hops.len())?;
    for a in 0..hops.len() {
        let p = begin_of(hops, a);
        next.push(first[p])?;
        first[p] = Some(a);
    }
    Ok(next)
}

/// Pairs each arc with one of its own that begins where it ends. The table is blank before and after.
fn pair_up(
    alloc: Global,
    hops: &[Hop],
    first: &mut Vec<Option<usize>>,
) -> Result<Vec<usize>, AllocError>
    requires balanced { IsBalanced hops.now (length first.old.items) }
    requires blank { IsBlank (length first.old.items) first.old.items }
    ensures goes { IfOk result (λ after. GoesOn (begins hops.now) (ends hops.now) (length hops.now) after.items) }
    ensures blank { OnOk result (IsBlank (length first.old.items) first.new.items) }
{
    let next = list_leaving(alloc, hops, first)?;
    let mut after: Vec<usize> = Vec::with_capacity(alloc, hops.len())?;
    for a in 0..hops.len() {
        let p = end_of(hops, a);
        let b = first[p].unwrap();
        first[p] = next[b];
        after.push(b)?;
    }
    Ok(after)
}

/// Empties the places of the points where the arcs of a ring begin.
fn unmark(hops: &[Hop], place: &mut Vec<Option<usize>>, ring: &[usize])
    requires { AreInside (begins hops.now) (length place.old.items) (length hops.now) ring.now }
    ensures { Clears (begins hops.now) ring.now (length ring.now) place.old.items place.new.items }
{
    for i in 0..ring.len() {
        let p = begin_of(hops, ring[i]);
        place[p] = None;
    }
}

/// Cuts the path before its arc at `k`: what follows becomes a ring.
fn close(
    hops: &[Hop],
    place: &mut Vec<Option<usize>>,
    path: &mut Vec<usize>,
    rings: &mut Vec<Vec<usize>>,
    k: usize,
) -> Result<(), AllocError>
    requires inside { AreInside (begins hops.now) (length place.old.items) (length hops.now) path.old.items }
    requires long { k ≤ length path.old.items }
    ensures { OnOk result (Closes (begins hops.now) k place.old.items path.old.items (map (λ r. r.items) rings.old.items) place.new.items path.new.items (map (λ r. r.items) rings.new.items)) }
{
    let ring = path.split_off(k)?;
    unmark(hops, place, &ring);
    rings.push(ring)?;
    Ok(())
}

/// Walks from `start`, an arc not taken yet, round to it, and cuts a ring wherever the walk comes back to a point.
/// `place` has, for each point of the path, the place of the arc on the path that begins there.
fn walk_round(
    hops: &[Hop],
    after: &[usize],
    used: &mut Vec<bool>,
    place: &mut Vec<Option<usize>>,
    path: &mut Vec<usize>,
    rings: &mut Vec<Vec<usize>>,
    start: usize,
) -> Result<(), AllocError>
    requires balanced { IsBalanced hops.now (length place.old.items) }
    requires goes { GoesOn (begins hops.now) (ends hops.now) (length hops.now) after.now }
    requires inside { start < length hops.now }
    requires new { slice_index_or used.old.items start false ≡ false }
    requires rests { Rests (begins hops.now) (ends hops.now) (length place.old.items) (length hops.now) after.now used.old.items place.old.items path.old.items (map (λ r. r.items) rings.old.items) }
    ensures rests { OnOk result (Rests (begins hops.now) (ends hops.now) (length place.old.items) (length hops.now) after.now used.new.items place.new.items path.new.items (map (λ r. r.items) rings.new.items)) }
    ensures grows { OnOk result ((a : ℕ) → IsUsed used.old.items a → IsUsed used.new.items a) }
    ensures taken { OnOk result (IsUsed used.new.items start) }
{
    let mut arc = start;
    while !used[arc] {
        used[arc] = true;
        let p = begin_of(hops, arc);
        let top = path.len();
        place[p] = Some(top);
        path.push(arc)?;
        let q = end_of(hops, arc);
        if let Some(k) = place[q] {
            close(hops, place, path, rings, k)?;
        }
        arc = after[arc];
    }
    Ok(())
}

/// Cuts the arcs into rings, over a table that is blank before and, where memory sufficed, after.
fn cut(
    alloc: Global,
    hops: &[Hop],
    table: &mut Vec<Option<usize>>,
) -> Result<Vec<Vec<usize>>, AllocError>
    requires balanced { IsBalanced hops.now (length table.old.items) }
    requires blank { IsBlank (length table.old.items) table.old.items }
    ensures rings { IfOk result (λ rings. CutsIntoRings hops.now (map (λ r. r.items) rings.items)) }
    ensures blank { OnOk result (IsBlank (length table.old.items) table.new.items) }
{
    let after = pair_up(alloc, hops, table)?;
    let mut used = vec![in alloc; false; hops.len()]?;
    let mut path: Vec<usize> = Vec::with_capacity(alloc, hops.len())?;
    let mut rings: Vec<Vec<usize>> = Vec::new(alloc);
    for start in 0..hops.len() {
        if !used[start] {
            walk_round(hops, &after, &mut used, table, &mut path, &mut rings, start)?;
        }
    }
    Ok(rings)
}
