// The overview of a grid.
ghost use Rattle.std.specs.Prelude.{◌≡◌, ◌*◌, ◌<◌, ◌≤◌, length, IfOk};
ghost use Rattle.depth_grid.specs.Views.{grid_view};
ghost use Rattle.overview_grid.specs.Coarse.{coarse_grid};
ghost use Rattle.overview_grid.specs.Overview.{AreCoarsePlaces, IsOverview};
ghost use Rattle.overview_grid.specs.Narrowed.{AreLeastDepths};

use crate::narrowing::{Rows, coarse_count};
use depth_grid::Grid;
use std::alloc::{AllocError, Global};

// Every so many-th column's longitude.
fn coarse_columns(alloc: Global, grid: &Grid, factor: usize) -> Result<Vec<i32>, AllocError>
    requires { 1 ≤ factor }
    ensures { IfOk result (λ v. AreCoarsePlaces (grid_view grid.now).xs factor v.items) }
{
    let count = coarse_count(grid.cols(), factor);
    let mut xs = Vec::with_capacity(alloc, count)?;
    for k in 0..count {
        xs.push_reserved(grid.x(factor * k));
    }
    Ok(xs)
}

// Every so many-th row's latitude.
fn coarse_rows(alloc: Global, grid: &Grid, factor: usize) -> Result<Vec<i32>, AllocError>
    requires { 1 ≤ factor }
    ensures { IfOk result (λ v. AreCoarsePlaces (grid_view grid.now).ys factor v.items) }
{
    let count = coarse_count(grid.rows(), factor);
    let mut ys = Vec::with_capacity(alloc, count)?;
    for k in 0..count {
        ys.push_reserved(grid.y(factor * k));
    }
    Ok(ys)
}

// The depths of the overview of a grid, row by row.
fn least_depths(alloc: Global, grid: &Grid, factor: usize) -> Result<Vec<Option<i32>>, AllocError>
    requires factor { 1 ≤ factor }
    requires rows { factor < length (grid_view grid.now).ys }
    requires columns { factor < length (grid_view grid.now).xs }
    ensures { IfOk result (λ v. AreLeastDepths (grid_view grid.now) factor v.items) }
{
    let along_rows = Rows {
        values: grid.depths(),
        rows: grid.rows(),
        cols: grid.cols(),
        factor,
    };
    let narrowed = along_rows.narrowed(alloc)?;
    let along_columns = Rows {
        values: narrowed.as_slice(),
        rows: coarse_count(grid.cols(), factor),
        cols: grid.rows(),
        factor,
    };
    along_columns.narrowed(alloc)
}

/// A coarse grid that stays shoal-biased: every `factor`-th row and column of a grid, from the
/// first on.
///
/// Each of its nodes has the least depth of its neighbourhood in the fine grid, which is all nodes
/// at most `factor` rows and columns away, fewer at the grid's border; and no depth where one node
/// of the neighbourhood has none. So no depth of the coarse grid is deeper than any depth that was
/// left out beside it. Depths are in millimetres, as the fine grid's, which stays as it was.
///
/// The factor is at least 1 and less than the grid's rows and columns. The only refusal is want of
/// memory.
pub fn overview(alloc: Global, grid: &Grid, factor: u32) -> Result<Grid, AllocError>
    requires factor { 1 ≤ factor }
    requires rows { factor < length (grid_view grid.now).ys }
    requires columns { factor < length (grid_view grid.now).xs }
    ensures overview { IfOk result (λ c. IsOverview (grid_view grid.now) factor (grid_view c)) }
    // and so it is the one that the definitions compute
    ensures computed { IfOk result (λ c. grid_view c ≡ coarse_grid (grid_view grid.now) factor) }
{
    let factor = factor as usize;
    let xs = coarse_columns(alloc, grid, factor)?;
    let ys = coarse_rows(alloc, grid, factor)?;
    let depths = least_depths(alloc, grid, factor)?;
    Ok(Grid::new(xs, ys, depths))
}
