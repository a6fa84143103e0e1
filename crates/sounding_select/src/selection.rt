// Selecting soundings.
ghost use Rattle.std.specs.Prelude.{◌≡◌, ◌⊎◌, ℕ, ◌+◌, ◌*◌, ◌<◌, ◌≤◌, ◌≢◌, AllPairs, Contains, IfOk, IsSorted, length, slice_index};
ghost use Rattle.depth_rounding.specs.Views.{levels_view};
ghost use Rattle.shoal_buffer.specs.Views.{charted_view};
ghost use Rattle.sounding_select.specs.Candidates.{order_of, AreCandidates, IsSelected};
ghost use Rattle.sounding_select.specs.Selection.{IsCandidate, IsSelection, IsLeftOut};
ghost use Rattle.depth_grid.specs.declared.node.NodeId.{NodeId};

use crate::candidates::{Candidate, candidates};
use crate::discs::discs;
use crate::marks::Marks;
use depth_grid::{NodeId, Radii};
use depth_rounding::Levels;
use shoal_buffer::Charted;
use std::alloc::{AllocError, Global};

// The soundings among the candidates in their order: each whose node isn't marked is one, and then the nodes of its disc
// are marked.
//
// Two soundings of one band lie further apart than the band's radius. So at most five of them have the same node in their
// discs: of six, two would be seen from it within a sixth of a turn, and so lie within the radius of one another. All
// marking together therefore sets at most five times as many marks as there are nodes, for each band.
fn soundings(
    alloc: Global,
    ch: &Charted,
    levels: &Levels,
    radii: &Radii,
    candidates: &[Candidate],
) -> Result<Vec<NodeId>, AllocError>
    requires aspect { radii.now.aspect ≤ 1000 }
    requires count { (radii.now.count ≡ 1) ⊎ (radii.now.count ≡ length (levels_view levels.now) + 1) }
    requires small { (k : ℕ) → k < radii.now.count → slice_index radii.now.radius k ≤ 64000 }
    requires all { AreCandidates (charted_view ch.now) candidates.now }
    requires sorted { IsSorted order_of candidates.now }
    ensures { IfOk result (λ v. IsSelected (charted_view ch.now) (levels_view levels.now) radii.now v.items) }
{
    let rows = ch.grid().rows();
    let cols = ch.grid().cols();
    let discs = discs(alloc, levels, radii, rows, cols)?;
    let mut marks = Marks::new(alloc, rows, cols)?;
    // Any candidate may be taken, and growing would copy those that were.
    let mut chosen = Vec::with_capacity(alloc, candidates.len())?;
    for candidate in candidates {
        let node = candidate.node();
        if !marks.has(node) {
            marks.mark_disc(node, &discs[candidate.band(levels)]);
            chosen.push(node)?;
        }
    }
    Ok(chosen)
}

/// The nodes that become soundings, in the order of charted depth, depth, row and column.
///
/// Each kept node is selected unless it is in the disc of one selected before it; the disc's
/// radius is that of that one's own band. `radii` has one radius or one for each band, each at
/// most 64,000, and an aspect of at most 1,000.
pub fn select(
    alloc: Global,
    ch: &Charted,
    levels: &Levels,
    radii: &Radii,
) -> Result<Vec<NodeId>, AllocError>
    requires aspect { radii.now.aspect ≤ 1000 }
    requires count { (radii.now.count ≡ 1) ⊎ (radii.now.count ≡ length (levels_view levels.now) + 1) }
    requires small { (k : ℕ) → k < radii.now.count → slice_index radii.now.radius k ≤ 64000 }
    ensures selection { IfOk result (λ v. IsSelection (charted_view ch.now) (levels_view levels.now) radii.now v.items) }
    ensures left_out { IfOk result (λ v. (q : NodeId) → IsCandidate (charted_view ch.now) q → Contains v.items q ⊎ IsLeftOut (charted_view ch.now) (levels_view levels.now) radii.now v.items q) }
    ensures distinct { IfOk result (λ v. AllPairs ◌≢◌ v.items) }
    ensures few { IfOk result (λ v. length v.items ≤ length (charted_view ch.now).grid.ys * length (charted_view ch.now).grid.xs) }
{
    let candidates = candidates(alloc, ch)?;
    soundings(alloc, ch, levels, radii, &candidates)
}
