// The positions of the sample's columns and rows.
ghost use Rattle.std.specs.Prelude.{◌≡◌, ◌+◌, ◌*◌, ◌^◌, ◌≤◌, ◌≤ℤ◌, pos, IfOk};
ghost use Rattle.depth_grid.specs.Snap.{snapped};
ghost use Rattle.grid_reader.specs.Shape.{further, position, positions};

use depth_grid::snap;
use std::alloc::{AllocError, Global};

/// A ten-thousandth of a degree, in units of 10^-24 degree.
const CELL: i128 = 100_000_000_000_000_000_000;

// Twice the position so many cells from the first.
fn doubled(first: i128, cells: usize) -> i128
    requires low { pos 0 ≤ℤ first }
    requires high { first ≤ℤ pos (104 * 10 ^ 24) }
    requires few { cells ≤ 1025 }
    ensures value { result ≡ further first (pos (10 ^ 20)) cells }
    ensures low { pos 0 ≤ℤ result }
    ensures high { result ≤ℤ pos (105 * 10 ^ 24) }
{
    first + 2 * cells as i128 * CELL
}

// The position on the raster that is nearest to a doubled one.
fn nearest(doubled: i128) -> i32
    requires low { pos 0 ≤ℤ doubled }
    requires high { doubled ≤ℤ pos (105 * 10 ^ 24) }
    ensures { result ≡ snapped doubled }
{
    match snap(doubled) {
        Some(place) => place,
        None => unreachable!(),
    }
}

// The position so many cells from the first.
fn place(first: i128, cells: usize) -> i32
    requires low { pos 0 ≤ℤ first }
    requires high { first ≤ℤ pos (104 * 10 ^ 24) }
    requires few { cells ≤ 1025 }
    ensures { result ≡ position first (pos (10 ^ 20)) cells }
{
    nearest(doubled(first, cells))
}

/// So many rising positions, a ten-thousandth of a degree from each other. `first` is the doubled position of the
/// first, in units of 10^-24 degree.
pub(crate) fn places(alloc: Global, first: i128, count: usize) -> Result<Vec<i32>, AllocError>
    requires low { pos 0 ≤ℤ first }
    requires high { first ≤ℤ pos (104 * 10 ^ 24) }
    requires few { count ≤ 1025 }
    ensures { IfOk result (λ v. v.items ≡ positions first (pos (10 ^ 20)) count) }
{
    let mut places = Vec::with_capacity(alloc, count)?;
    for cells in 0..count {
        places.push(place(first, cells))?;
    }
    Ok(places)
}
