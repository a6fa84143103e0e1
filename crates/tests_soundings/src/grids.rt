// Grids, discs and radii for the tests, and what a generalised grid says of a node.
ghost use Rattle.std.specs.Prelude.{◌≡◌, ℕ, ◌<◌, ◌≤◌, slice_index};

use depth_grid::{Grid, NodeId, Radii, Reach};
use grid_reader::{Sense, read_grid};
use shoal_buffer::Charted;
use std::alloc::Global;
use std::test::Fail;

// A grid of these values in metres, so many to a row.
pub(crate) fn grid_of(alloc: Global, cols: usize, rows: usize, values: &str) -> Result<Grid, Fail> {
    let text = format!(in alloc;
        "ncols {cols} nrows {rows} xllcenter 0 yllcenter 0 cellsize 0.001 {values}"
    )?;
    match read_grid(alloc, text.as_bytes(), Sense::Down) {
        Ok(grid) => Ok(grid),
        Err(_) => Err(Fail::from("no grid")),
    }
}

pub(crate) fn reach(aspect: u32, radius: u32) -> Reach
    requires aspect { aspect ≤ 1000 }
    requires radius { radius ≤ 64000 }
    ensures aspect { result.aspect ≤ 1000 }
    ensures radius { result.radius ≤ 64000 }
{
    Reach { aspect, radius }
}

// One radius for every band.
pub(crate) fn radii(aspect: u32, radius: u32) -> Radii
    requires aspect { aspect ≤ 1000 }
    requires radius { radius ≤ 64000 }
    ensures aspect { result.aspect ≤ 1000 }
    ensures count { result.count ≡ 1 }
    ensures small { (k : ℕ) → k < result.count → slice_index result.radius k ≤ 64000 }
{
    Radii {
        aspect,
        count: 1,
        radius: [radius; 21],
    }
}

// What a generalised grid says of a node: its opened and its charted depth, and whether it is kept.
pub(crate) fn told(charted: &Charted, row: usize, col: usize) -> (Option<i32>, Option<i32>, bool) {
    if row >= charted.grid().rows() || col >= charted.grid().cols() {
        return (None, None, false);
    }
    let node = NodeId { row, col };
    (charted.g(node), charted.c(node), charted.kept(node))
}
