// The nodes that may become soundings, in their order.
ghost use Rattle.std.specs.Prelude.{◌≡◌, ◌+◌, ◌*◌, ◌<◌, ◌≤◌, ◌≤ℤ◌, pos, neg_ℤ, IfOk, OnOk, IsSorted, length, MatchOption};
ghost use Rattle.depth_rounding.specs.Bands.{band_of};
ghost use Rattle.depth_rounding.specs.Views.{levels_view};
ghost use Rattle.shoal_buffer.specs.Charted.{IsKept};
ghost use Rattle.shoal_buffer.specs.Views.{charted_view};
ghost use Rattle.sounding_select.specs.Candidates.{order_of, node_of, told_depth, told_charted, Describes, AreFound, AreCandidates};

use depth_grid::NodeId;
use depth_rounding::Levels;
use shoal_buffer::Charted;
use std::alloc::{AllocError, Global};

// A grid has at most so many rows, and so many columns.
const SIDE: u64 = 1_025;

// Depths are within so many millimetres of the datum.
const DEPTH_LIMIT: i32 = 12_000_000;

// Charted depths are within so many decimetres of it.
const CHARTED_LIMIT: i32 = 120_000;

// How many depths there are.
const DEPTHS: u64 = 2 * DEPTH_LIMIT as u64 + 1;

// A kept node as one number. Its digits, the greatest first, are the node's charted depth, its depth, its row and its
// column, each counted from its least value: nodes are taken in the order of these four, so a sort compares single
// numbers and looks nothing up. The greatest rank has 63 bits.
#[derive(Clone, Copy, PartialEq, Eq, PartialOrd, Ord)]
pub(crate) struct Candidate {
    pub rank: u64,
}

impl Candidate {
    // A node with its charted depth in decimetres and its depth in millimetres.
    fn new(node: NodeId, charted: i32, depth: i32) -> Candidate
        requires row { node.row ≤ 1024 }
        requires col { node.col ≤ 1024 }
        requires least_charted { neg_ℤ (pos 120000) ≤ℤ charted }
        requires deepest_charted { charted ≤ℤ pos 120000 }
        requires least { neg_ℤ (pos 12000000) ≤ℤ depth }
        requires deepest { depth ≤ℤ pos 12000000 }
        ensures node { node_of result ≡ node }
        ensures charted { told_charted result ≡ charted }
        ensures depth { told_depth result ≡ depth }
    {
        let charted = (charted + CHARTED_LIMIT) as u64;
        let depth = (depth + DEPTH_LIMIT) as u64;
        let depths = charted * DEPTHS + depth;
        Candidate {
            rank: (depths * SIDE + node.row as u64) * SIDE + node.col as u64,
        }
    }

    pub(crate) fn node(&self) -> NodeId
        ensures { result ≡ node_of self.now }
    {
        NodeId {
            row: (self.rank / SIDE % SIDE) as usize,
            col: (self.rank % SIDE) as usize,
        }
    }

    // Its charted depth in decimetres.
    fn charted(&self) -> i32
        ensures { result ≡ told_charted self.now }
    {
        (self.rank / SIDE / SIDE / DEPTHS) as i32 - CHARTED_LIMIT
    }

    // The band of its charted depth.
    pub(crate) fn band(&self, levels: &Levels) -> usize
        ensures value { result ≡ band_of (levels_view levels.now) (told_charted self.now) }
        ensures within { result ≤ length (levels_view levels.now) }
    {
        levels.band(self.charted()) as usize
    }
}

// A node as a candidate, where it is kept.
fn candidate_at(ch: &Charted, node: NodeId) -> Option<Candidate>
    requires row { node.row < length (charted_view ch.now).grid.ys }
    requires col { node.col < length (charted_view ch.now).grid.xs }
    ensures { MatchOption result (¬ (IsKept (charted_view ch.now) node.row node.col)) (Describes (charted_view ch.now) node) }
{
    if !ch.kept(node) {
        return None;
    }
    match (ch.c(node), ch.g(node)) {
        (Some(charted), Some(depth)) => Some(Candidate::new(node, charted, depth)),
        _ => None,
    }
}

// Adds the candidates of a row to those of the rows before it.
fn add_row(found: &mut Vec<Candidate>, ch: &Charted, row: usize) -> Result<(), AllocError>
    requires row { row < length (charted_view ch.now).grid.ys }
    requires before { AreFound (charted_view ch.now) (row * length (charted_view ch.now).grid.xs) found.old.items }
    ensures { OnOk result (AreFound (charted_view ch.now) ((row + 1) * length (charted_view ch.now).grid.xs) found.new.items) }
{
    for col in 0..ch.grid().cols() {
        if let Some(candidate) = candidate_at(ch, NodeId { row, col }) {
            found.push(candidate)?;
        }
    }
    Ok(())
}

// All candidates, row by row.
fn candidates_by_rows(alloc: Global, ch: &Charted) -> Result<Vec<Candidate>, AllocError>
    ensures { IfOk result (λ v. AreCandidates (charted_view ch.now) v.items) }
{
    let rows = ch.grid().rows();
    let mut found = Vec::with_capacity(alloc, rows * ch.grid().cols())?;
    for row in 0..rows {
        add_row(&mut found, ch, row)?;
    }
    Ok(found)
}

// All candidates in their order.
pub(crate) fn candidates(alloc: Global, ch: &Charted) -> Result<Vec<Candidate>, AllocError>
    ensures all { IfOk result (λ v. AreCandidates (charted_view ch.now) v.items) }
    ensures sorted { IfOk result (λ v. IsSorted order_of v.items) }
{
    let mut candidates = candidates_by_rows(alloc, ch)?;
    candidates.sort_unstable();
    Ok(candidates)
}
