// The sample grid.
ghost use Rattle.std.specs.Prelude.{◌≡◌, ◌<◌, ◌≤◌, ℕ, IfOk};
ghost use Rattle.depth_grid.specs.Grid.{depth_at};
ghost use Rattle.depth_grid.specs.Views.{grid_view};
ghost use Rattle.chart_sample.specs.Depths.{sample_depth};
ghost use Rattle.chart_sample.specs.Sample.{sample_view, sized_view};

use crate::depths::depths;
use crate::places::places;
use depth_grid::Grid;
use std::alloc::{AllocError, Global};

/// Twice 4 degrees east, in units of 10^-24 degree.
const WEST: i128 = 8_000_000_000_000_000_000_000_000;

/// Twice 52 degrees north, in units of 10^-24 degree.
const SOUTH: i128 = 104_000_000_000_000_000_000_000_000;

// A sample of so many rows and columns.
fn sized_grid(alloc: Global, n: u32, rows: u32, cols: u32) -> Result<Grid, AllocError>
    requires rows { 2 ≤ rows }
    requires few_rows { rows ≤ 1025 }
    requires cols { 2 ≤ cols }
    requires few_cols { cols ≤ 1025 }
    ensures view { IfOk result (λ g. grid_view g ≡ sized_view n rows cols) }
    ensures depths { IfOk result (λ g. (row col : ℕ) → row < rows → col < cols → depth_at (grid_view g) row col ≡ sample_depth n row col) }
{
    let xs = places(alloc, WEST, cols as usize)?;
    let mut ys = places(alloc, SOUTH, rows as usize)?;
    ys.reverse();
    let depths = depths(alloc, n, rows, cols)?;
    Ok(Grid::new(xs, ys, depths))
}

/// The `n`th sample grid: 301 rows and 401 columns of a sea floor that falls to the east and to the south under noise,
/// from 1 metre above datum to 42.999 metres below it, with a patch of 20 by 40 nodes that has no data.
///
/// Its south-western node is at 4 degrees east and 52 degrees north, its cells are a ten-thousandth of a degree, and
/// the same `n` gives the same grid on every machine.
pub fn sample_grid(alloc: Global, n: u32) -> Result<Grid, AllocError>
    ensures view { IfOk result (λ g. grid_view g ≡ sample_view n) }
    ensures depths { IfOk result (λ g. (row col : ℕ) → row < 301 → col < 401 → depth_at (grid_view g) row col ≡ sample_depth n row col) }
{
    sized_grid(alloc, n, 301, 401)
}
