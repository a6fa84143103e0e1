// Generalising grids of every size, beside a plain body that looks at each node's whole disc.
ghost use Rattle.std.specs.Prelude.{◌<◌, ◌≤◌, length};

use crate::grids::{reach, told};
use depth_grid::{Grid, Reach};
use depth_rounding::Bands;
use grid_reader::{Sense, read_grid};
use shoal_buffer::generalise;
use std::alloc::{AllocError, Global};
use std::process::Abort;
use std::test::Fail;

// Whether a node so many rows and columns away is in a disc.
fn is_near(disc: &Reach, rows: usize, cols: usize) -> bool {
    let down = (rows as u64).wrapping_mul(1000);
    let across = (cols as u64).wrapping_mul(disc.aspect as u64);
    let radius = disc.radius as u64;
    down.wrapping_mul(down)
        .wrapping_add(across.wrapping_mul(across))
        <= radius.wrapping_mul(radius)
}

// The least or the greatest value in a node's disc, where the node has one itself.
fn over_disc(
    disc: &Reach,
    cols: usize,
    values: &[Option<i32>],
    at: usize,
    greatest: bool,
) -> Option<i32>
    requires cols { 0 < cols }
    requires at { at < length values.now }
{
    let mut best = values[at];
    for (k, value) in values.iter().enumerate() {
        let rows_away = (k / cols).abs_diff(at / cols);
        let cols_away = (k % cols).abs_diff(at % cols);
        if let (Some(x), Some(y)) = (value, best) {
            if is_near(disc, rows_away, cols_away) && greatest == (*x > y) {
                best = Some(*x);
            }
        }
    }
    best
}

// The same for all nodes.
fn over_discs(
    alloc: Global,
    disc: &Reach,
    cols: usize,
    values: &[Option<i32>],
    greatest: bool,
) -> Result<Vec<Option<i32>>, AllocError>
    requires { 0 < cols }
{
    let mut found = Vec::with_capacity(alloc, values.len())?;
    for at in 0..values.len() {
        found.push(over_disc(disc, cols, values, at, greatest))?;
    }
    Ok(found)
}

// A grid is opened as by its whole discs.
fn expect_opened(rt: &impl Abort, alloc: Global, grid: &Grid, disc: &Reach) -> Result<(), Fail>
    requires aspect { disc.now.aspect ≤ 1000 }
    requires radius { disc.now.radius ≤ 64000 }
{
    let cols = grid.cols();
    let least = over_discs(alloc, disc, cols, grid.depths(), false)?;
    let opened = over_discs(alloc, disc, cols, &least, true)?;
    let charted = generalise(alloc, grid, disc, &Bands::usual())?;
    for (at, wanted) in opened.iter().enumerate() {
        assert_eq!(rt; told(&charted, at / cols, at % cols).0, *wanted, "{at}");
    }
    Ok(())
}

// Discs of no neighbour, of one, of some and of all nodes, and of columns as narrow as may be.
fn expect_opened_by_all(rt: &impl Abort, alloc: Global, grid: &Grid) -> Result<(), Fail> {
    for aspect in [100u32, 616, 1000] {
        for radius in [999u32, 1_000, 2_500, 64_000] {
            expect_opened(rt, alloc, grid, &reach(aspect, radius))?;
        }
    }
    Ok(())
}

// Grids with holes at corners, at edges and inside.
const GRIDS: &str = "\
ncols 6 nrows 5 xllcenter 0 yllcenter 0 cellsize 0.001 nan 12 7 30 9 nan 4 9 nan 25 11 18 nan 6 3 40 nan 21 5 14 33 2 8 nan 17 nan 16 1 28 10
ncols 2 nrows 9 xllcenter 0 yllcenter 0 cellsize 0.001 8 nan 15 3 nan nan 22 9 4 17 nan 31 12 6 19 2 nan 27
ncols 11 nrows 2 xllcenter 0 yllcenter 0 cellsize 0.001 5 19 nan 8 30 12 3 nan 21 16 nan nan 7 25 14 nan 9 33 2 18 11 6
ncols 7 nrows 7 xllcenter 0 yllcenter 0 cellsize 0.001 20 20 20 20 20 20 nan 20 40 20 20 20 3 20 20 20 20 nan 20 20 20 20 20 20 20 50 20 nan nan 20 2 20 20 20 20 20 20 20 20 20 60 20 20 nan 20 20 20 20 9";

#[test]
fn small_grids_are_opened_as_by_whole_discs(rt: HostRuntime) -> Result<(), Fail> {
    for text in GRIDS.lines() {
        match read_grid(rt.alloc(), text.as_bytes(), Sense::Down) {
            Ok(grid) => expect_opened_by_all(&rt, rt.alloc(), &grid)?,
            Err(_) => return Err(Fail::from("no grid")),
        }
    }
    Ok(())
}

// A level grid of so many nodes a side with one shoal.
fn level_with_shoal(alloc: Global, side: usize, shoal: usize) -> Result<String, AllocError> {
    let mut text = format!(in alloc;
        "ncols {side} nrows {side} xllcenter 0 yllcenter 0 cellsize 0.001"
    )?;
    for at in 0..side.wrapping_mul(side) {
        text.push_str(if at == shoal { " 5" } else { " 20" })?;
    }
    Ok(text)
}

#[test]
fn a_shoal_stays_alone_in_the_largest_grid(rt: HostRuntime) -> Result<(), Fail> {
    let text = level_with_shoal(rt.alloc(), 1025, 300_200)?;
    let Ok(grid) = read_grid(rt.alloc(), text.as_bytes(), Sense::Down) else {
        return Err(Fail::from("no grid"));
    };
    let charted = generalise(rt.alloc(), &grid, &reach(1000, 64_000), &Bands::usual())?;
    for at in 0..1025 * 1025 {
        let wanted = if at == 300_200 { 5_000 } else { 20_000 };
        assert_eq!(rt;
            told(&charted, at / 1025, at % 1025).0,
            Some(wanted),
            "{at}"
        );
    }
    Ok(())
}
