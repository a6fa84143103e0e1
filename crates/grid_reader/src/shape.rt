// What a header says of a grid: its sides, and where its columns and rows lie.
ghost use Rattle.std.specs.Prelude.{◌≡◌, ◌*◌, ◌^◌, ◌≤◌, ◌+ℤ◌, ◌*ℤ◌, ◌≤ℤ◌, true, false, pos, IfSome, IfNone, unsigned_abs};
ghost use Rattle.exact_num.specs.Value.{floor_at, whole_of};
ghost use Rattle.grid_reader.specs.Shape.{side_from, cell_from, doubled, further, is_within, positions_within, places_of, places_found};
ghost use Rattle.depth_grid.specs.Snap.{snapped};
ghost use Rattle.grid_reader.specs.Seen.{places_view};
ghost use Rattle.grid_reader.specs.Reading.{Gives};

use crate::found::{Found, Needs, Origin, find_needs};
use crate::{GridFault, GridKey};
use depth_grid::snap;
use exact_num::{Decimal, scaled_floor, whole};
use std::alloc::Global;

/// Decimal places to which the header's x, y and cell size are taken, in degrees.
const PLACES: u32 = 24;

const LEAST_CELL: i128 = 10_000_000_000_000_000_000;

const GREATEST_CELL: i128 = 1_000_000_000_000_000_000_000_000;

const HALF_TURN: u32 = 1_800_000_000;

const QUARTER_TURN: u32 = 900_000_000;

/// The positions of a grid's columns and rows.
#[derive(Drop)]
pub(crate) struct Places {
    pub xs: Vec<i32>,
    pub ys: Vec<i32>,
}

fn side(value: &Decimal, key: GridKey) -> Result<usize, GridFault>
    ensures { result ≡ side_from key (whole_of value.now) }
{
    match whole(value) {
        Some(nodes) if 2 <= nodes && nodes <= 1025 => Ok(nodes as usize),
        _ => Err(GridFault::Side(key)),
    }
}

fn cell_size(value: &Decimal) -> Result<i128, GridFault>
    ensures { result ≡ cell_from (floor_at value.now 24) }
{
    match scaled_floor(value, PLACES) {
        Some(cell) if LEAST_CELL <= cell && cell <= GREATEST_CELL => Ok(cell),
        _ => Err(GridFault::CellSize),
    }
}

// Twice the first position, in units of 10^-24 degree.
fn first_position(origin: &Origin, cell: i128) -> Option<i128>
    requires low { pos (10 ^ 19) ≤ℤ cell }
    requires high { cell ≤ℤ pos (10 ^ 24) }
    ensures some { IfSome result (λ z. z ≡ doubled origin.now cell) }
    ensures small { IfSome result (λ z. unsigned_abs z ≤ 3 * 10 ^ 30) }
    ensures none { IfNone result (10 ^ 30 ≤ unsigned_abs (floor_at origin.now.value 24)) }
{
    let Some(first) = scaled_floor(&origin.value, PLACES) else {
        return None;
    };
    if origin.corner {
        return Some(2 * first + cell);
    }
    Some(2 * first)
}

// Twice the position so many cells from the first.
fn doubled_place(first: i128, cell: i128, cells: usize) -> i128
    requires first { unsigned_abs first ≤ 3 * 10 ^ 30 }
    requires low { pos (10 ^ 19) ≤ℤ cell }
    requires high { cell ≤ℤ pos (10 ^ 24) }
    requires few { cells ≤ 1025 }
    ensures value { result ≡ further first cell cells }
    ensures small { unsigned_abs result ≤ 10 ^ 31 }
{
    first + 2 * cells as i128 * cell
}

// The snapped position, where it is within `most`.
fn place(doubled: i128, most: u32) -> Option<i32>
    requires small { unsigned_abs doubled ≤ 10 ^ 31 }
    requires most { most ≤ 1800000000 }
    ensures place { IfSome result (λ z. z ≡ snapped doubled) }
    ensures within { IfSome result (λ z. is_within most (snapped doubled) ≡ true) }
    ensures beyond { IfNone result (is_within most (snapped doubled) ≡ false) }
{
    match snap(doubled) {
        Some(place) if place.unsigned_abs() <= most => Some(place),
        _ => None,
    }
}

// Rising positions, one cell from each other.
fn spread(
    alloc: Global,
    first: i128,
    cell: i128,
    count: usize,
    most: u32,
) -> Result<Vec<i32>, GridFault>
    requires first { unsigned_abs first ≤ 3 * 10 ^ 30 }
    requires low { pos (10 ^ 19) ≤ℤ cell }
    requires high { cell ≤ℤ pos (10 ^ 24) }
    requires few { count ≤ 1025 }
    requires most { most ≤ 1800000000 }
    ensures { Gives (λ v. v.items) result (positions_within most first cell count) }
{
    let mut places = Vec::with_capacity(alloc, count)?;
    for cells in 0..count {
        match place(doubled_place(first, cell, cells), most) {
            Some(place) => places.push(place)?,
            None => return Err(GridFault::Position),
        }
    }
    Ok(places)
}

fn positions(
    alloc: Global,
    origin: &Origin,
    cell: i128,
    count: usize,
    most: u32,
) -> Result<Vec<i32>, GridFault>
    requires low { pos (10 ^ 19) ≤ℤ cell }
    requires high { cell ≤ℤ pos (10 ^ 24) }
    requires some { 2 ≤ count }
    requires few { count ≤ 1025 }
    requires most { most ≤ 1800000000 }
    ensures { Gives (λ v. v.items) result (positions_within most (doubled origin.now cell) cell count) }
{
    let first = first_position(origin, cell).ok_or(GridFault::Position)?;
    spread(alloc, first, cell, count, most)
}

// The columns from west to east, and the rows from north to south.
fn needed_places(alloc: Global, needs: &Needs) -> Result<Places, GridFault>
    ensures { Gives places_view result (places_of needs.now) }
{
    let cols = side(&needs.cols, GridKey::Ncols)?;
    let rows = side(&needs.rows, GridKey::Nrows)?;
    let cell = cell_size(&needs.cell)?;
    let xs = positions(alloc, &needs.x, cell, cols, HALF_TURN)?;
    let mut ys = positions(alloc, &needs.y, cell, rows, QUARTER_TURN)?;
    ys.reverse();
    Ok(Places { xs, ys })
}

// The same of what a header gives.
pub(crate) fn read_places(alloc: Global, found: &Found) -> Result<Places, GridFault>
    ensures { Gives places_view result (places_found found.now) }
{
    needed_places(alloc, &find_needs(found)?)
}
