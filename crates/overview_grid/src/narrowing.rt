// Rows of depths, narrowed to the least ones beside every so many-th column.
ghost use Rattle.std.specs.Prelude.{◌≡◌, ◌*◌, ◌<◌, ◌≤◌, length, IfOk};
ghost use Rattle.overview_grid.specs.Least.{IsLeastOf};
ghost use Rattle.overview_grid.specs.Narrowed.{StandsAlong, AreNarrowed};
ghost use Rattle.overview_grid.specs.Overview.{coarse_count};

use crate::least::least_between;
use std::alloc::{AllocError, Global};

// How many rows or columns an overview has, of so many of the fine grid.
pub(crate) fn coarse_count(count: usize, factor: usize) -> usize
    requires some { 1 ≤ count }
    requires factor { 1 ≤ factor }
    ensures { result ≡ coarse_count count factor }
{
    (count - 1) / factor + 1
}

// Depths row by row, so many columns a row, and how far a neighbourhood reaches.
#[derive(Clone, Copy)]
pub(crate) struct Rows<'v> {
    pub values: &'v [Option<i32>],
    pub rows: usize,
    pub cols: usize,
    pub factor: usize,
    pub ghost full: { length values.now ≡ rows * cols },
    pub ghost some: { 1 ≤ rows },
    pub ghost reach: { (1 ≤ factor) × (factor < cols) },
    pub ghost few: { (rows ≤ 1025) × (cols ≤ 1025) },
}

impl Rows<'_> {
    // The least depth of a row at most `factor` columns away from a column.
    fn least_beside(&self, row: usize, col: usize) -> Option<i32>
        requires row { row < self.now.rows }
        requires col { col < self.now.cols }
        ensures { IsLeastOf (StandsAlong self.now.values.now self.now.cols self.now.factor row col) result }
    {
        let start = row * self.cols;
        let first = if col <= self.factor {
            0
        } else {
            col - self.factor
        };
        let past = if self.cols - col <= self.factor {
            self.cols
        } else {
            col + self.factor + 1
        };
        least_between(self.values, start + first, start + past)
    }

    // The least depths beside every `factor`-th column, column by column.
    pub(crate) fn narrowed(&self, alloc: Global) -> Result<Vec<Option<i32>>, AllocError>
        ensures { IfOk result (λ v. AreNarrowed self.now.values.now self.now.rows self.now.cols self.now.factor v.items) }
    {
        let count = coarse_count(self.cols, self.factor) * self.rows;
        let mut narrowed = Vec::with_capacity(alloc, count)?;
        for k in 0..count {
            narrowed.push_reserved(self.least_beside(k % self.rows, self.factor * (k / self.rows)));
        }
        Ok(narrowed)
    }
}
