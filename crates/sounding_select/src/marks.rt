// Marks of a grid's nodes.
ghost use Rattle.std.specs.Prelude.{◌≡◌, ◌↔◌, ◌||◌, ◌&&◌, ℕ, ◌+◌, ◌*◌, ◌<◌, ◌≤◌, false, nat_eq, nat_le, nat_lt, IfOk, length, slice_index, slice_index_or};
ghost use Rattle.std.specs.Int.{abs_diff};
ghost use Rattle.sounding_select.specs.Marks.{marked_at, disc_has};

use crate::discs::Disc;
use depth_grid::NodeId;
use std::alloc::{AllocError, Global};

// A mark for each node, row by row.
#[derive(Drop)]
pub(crate) struct Marks {
    pub rows: usize,
    pub cols: usize,
    pub marked: Vec<bool>,
    pub ghost few_rows: { rows ≤ 1025 },
    pub ghost few_cols: { cols ≤ 1025 },
    pub ghost full: { length marked.items ≡ rows * cols },
}

// Of the numbers below `count` those less than `width` from `at`: the first, and the one after the last.
fn span(at: usize, width: usize, count: usize) -> (usize, usize)
    requires few { count ≤ 1025 }
    requires within { at < count }
    requires narrow { width ≤ count }
    ensures begins { result.0 ≤ count }
    ensures ends { result.1 ≤ count }
    ensures ordered { 1 ≤ width → result.0 ≤ result.1 }
    ensures exact { (k : ℕ) → k < count → (abs_diff k at < width) ↔ ((result.0 ≤ k) × (k < result.1)) }
{
    let first = if at < width { 0 } else { at + 1 - width };
    let end = if at + width < count {
        at + width
    } else {
        count
    };
    (first, end)
}

// Marks the places from `first` on that are before `end`.
fn mark_run(marked: &mut [bool], first: usize, end: usize)
    requires ordered { first ≤ end }
    requires within { end ≤ length marked.old }
    ensures length { length marked.new ≡ length marked.old }
    ensures marked { (k : ℕ) → slice_index_or marked.new k false ≡ (slice_index_or marked.old k false || (nat_le first k && nat_lt k end)) }
{
    marked[first..end].fill(true);
}

impl Marks {
    // No node of so many rows and columns is marked.
    pub(crate) fn new(alloc: Global, rows: usize, cols: usize) -> Result<Marks, AllocError>
        requires rows { rows ≤ 1025 }
        requires cols { cols ≤ 1025 }
        ensures rows { IfOk result (λ m. m.rows ≡ rows) }
        ensures cols { IfOk result (λ m. m.cols ≡ cols) }
        ensures none { IfOk result (λ m. (i j : ℕ) → marked_at m.marked.items cols i j ≡ false) }
    {
        let marked = vec![in alloc; false; rows * cols]?;
        Ok(Marks { rows, cols, marked })
    }

    // Whether a node is marked.
    pub(crate) fn has(&self, node: NodeId) -> bool
        requires row { node.row < self.now.rows }
        requires col { node.col < self.now.cols }
        ensures { result ≡ marked_at self.now.marked.items self.now.cols node.row node.col }
    {
        self.marked[node.row * self.cols + node.col]
    }

    // Marks the nodes of a row that are less than `width` columns from `col`.
    fn mark_row(&mut self, row: usize, col: usize, width: usize)
        requires row { row < self.old.rows }
        requires col { col < self.old.cols }
        requires some { 1 ≤ width }
        requires narrow { width ≤ self.old.cols }
        ensures rows { self.new.rows ≡ self.old.rows }
        ensures cols { self.new.cols ≡ self.old.cols }
        ensures marked { (i j : ℕ) → j < self.old.cols → marked_at self.new.marked.items self.old.cols i j ≡ (marked_at self.old.marked.items self.old.cols i j || (nat_eq i row && nat_lt (abs_diff j col) width)) }
    {
        let (first, end) = span(col, width, self.cols);
        let at = row * self.cols;
        mark_run(&mut self.marked, at + first, at + end);
    }

    // Marks the nodes of a node's disc.
    pub(crate) fn mark_disc(&mut self, node: NodeId, disc: &Disc)
        requires row { node.row < self.old.rows }
        requires col { node.col < self.old.cols }
        requires few { length disc.now.widths.items ≤ self.old.rows }
        requires some { (down : ℕ) → down < length disc.now.widths.items → 1 ≤ slice_index disc.now.widths.items down }
        requires narrow { (down : ℕ) → slice_index disc.now.widths.items down ≤ self.old.cols }
        ensures rows { self.new.rows ≡ self.old.rows }
        ensures cols { self.new.cols ≡ self.old.cols }
        ensures marked { (i j : ℕ) → i < self.old.rows → j < self.old.cols → marked_at self.new.marked.items self.old.cols i j ≡ (marked_at self.old.marked.items self.old.cols i j || disc_has disc.now.widths.items (abs_diff i node.row) (abs_diff j node.col)) }
    {
        let (first, end) = span(node.row, disc.widths.len(), self.rows);
        for row in first..end {
            self.mark_row(row, node.col, disc.widths[row.abs_diff(node.row)]);
        }
    }
}
