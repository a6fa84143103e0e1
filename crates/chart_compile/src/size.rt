// Whether a grid and a sheet are small enough.
ghost use Rattle.std.specs.Prelude.{◌≡◌, ◌+◌, ◌*◌, nat_le, length};
ghost use Rattle.depth_grid.specs.Views.{grid_view};
ghost use Rattle.depth_rounding.specs.Views.{levels_view};

use depth_grid::Grid;
use rule_sheet::Sheet;

/// How many nodes times bands (levels and one more) a chart may have.
pub const SIZE_LIMIT: usize = 3_000_000;

/// How many nodes times bands there are.
pub fn size_of(grid: &Grid, sheet: &Sheet) -> usize
    ensures { result ≡ length (grid_view grid.now).ys * length (grid_view grid.now).xs * (length (levels_view sheet.now.levels) + 1) }
{
    grid.rows() * grid.cols() * (sheet.levels.count() as usize + 1)
}

/// Whether a chart of the grid by the sheet is small enough to be made: nodes times bands are at most 3,000,000.
pub fn within_size(grid: &Grid, sheet: &Sheet) -> bool
    ensures { result ≡ nat_le (length (grid_view grid.now).ys * length (grid_view grid.now).xs * (length (levels_view sheet.now.levels) + 1)) 3000000 }
{
    size_of(grid, sheet) <= SIZE_LIMIT
}
