// Selecting soundings beside a plain body that asks every sounding taken before, and on a large grid.
ghost use Rattle.std.specs.Prelude.{◌≡◌, ◌⊎◌, ℕ, ◌<◌, ◌≤◌, slice_index};

use crate::grids::{grid_of, radii, reach, told};
use depth_grid::{Grid, Radii};
use depth_rounding::{Bands, Levels};
use grid_reader::{Sense, read_grid};
use shoal_buffer::{Charted, generalise};
use sounding_select::select;
use std::alloc::{AllocError, Global};
use std::process::Abort;
use std::test::Fail;

// A radius for each of three bands.
fn radii_of_bands(aspect: u32, first: u32, second: u32, third: u32) -> Radii
    requires aspect { aspect ≤ 1000 }
    requires first { first ≤ 64000 }
    requires second { second ≤ 64000 }
    requires third { third ≤ 64000 }
    ensures aspect { result.aspect ≤ 1000 }
    ensures count { result.count ≡ 3 }
    ensures small { (k : ℕ) → k < result.count → slice_index result.radius k ≤ 64000 }
{
    let mut radius = [third; 21];
    radius[0] = first;
    radius[1] = second;
    Radii {
        aspect,
        count: 3,
        radius,
    }
}

// The kept nodes in the order in which they are taken: each as charted depth, depth, row and column.
fn kept_nodes(
    alloc: Global,
    charted: &Charted,
) -> Result<Vec<(i32, i32, usize, usize)>, AllocError> {
    let mut kept = Vec::new(alloc);
    for row in 0..charted.grid().rows() {
        for col in 0..charted.grid().cols() {
            if let (Some(depth), Some(c), true) = told(charted, row, col) {
                kept.push((c, depth, row, col))?;
            }
        }
    }
    kept.sort()?;
    Ok(kept)
}

// The radius of a sounding with this charted depth.
fn radius_at(levels: &Levels, radii: &Radii, c: i32) -> u64 {
    let band = if radii.count == 1 {
        0
    } else {
        levels.band(c) as usize
    };
    match radii.radius.get(band) {
        Some(radius) => *radius as u64,
        None => 0,
    }
}

// Whether a node so many rows and columns away is in a disc.
fn is_near(aspect: u32, radius: u64, rows: usize, cols: usize) -> bool {
    let down = (rows as u64).wrapping_mul(1000);
    let across = (cols as u64).wrapping_mul(aspect as u64);
    down.wrapping_mul(down)
        .wrapping_add(across.wrapping_mul(across))
        <= radius.wrapping_mul(radius)
}

// The soundings, by asking all that were taken before.
fn plain_soundings(
    alloc: Global,
    charted: &Charted,
    levels: &Levels,
    radii: &Radii,
) -> Result<Vec<(i32, i32, usize, usize)>, AllocError> {
    let kept = kept_nodes(alloc, charted)?;
    let mut taken: Vec<(i32, i32, usize, usize)> = Vec::new(alloc);
    for (c, depth, row, col) in kept.iter().copied() {
        let covered = taken.iter().any(|before| {
            let radius = radius_at(levels, radii, before.0);
            is_near(
                radii.aspect,
                radius,
                before.2.abs_diff(row),
                before.3.abs_diff(col),
            )
        });
        if !covered {
            taken.push((c, depth, row, col))?;
        }
    }
    Ok(taken)
}

// The soundings are those of the plain body.
fn expect_plain(
    rt: &impl Abort,
    alloc: Global,
    charted: &Charted,
    radii: &Radii,
) -> Result<(), Fail>
    requires aspect { radii.now.aspect ≤ 1000 }
    requires count { (radii.now.count ≡ 1) ⊎ (radii.now.count ≡ 3) }
    requires small { (k : ℕ) → k < radii.now.count → slice_index radii.now.radius k ≤ 64000 }
{
    let levels = Levels::new(&[50, 150]);
    let wanted = plain_soundings(alloc, charted, &levels, radii)?;
    let chosen = select(alloc, charted, &levels, radii)?;
    assert_eq!(rt; chosen.len(), wanted.len());
    for (node, taken) in chosen.iter().zip(wanted.iter()) {
        assert_eq!(rt; (node.row, node.col), (taken.2, taken.3));
    }
    Ok(())
}

// Discs of no neighbour, of one, of some and of all nodes, one radius for all bands or one for each.
fn expect_plain_by_all(rt: &impl Abort, alloc: Global, grid: &Grid) -> Result<(), Fail> {
    let charted = generalise(alloc, grid, &reach(1000, 0), &Bands::usual())?;
    for aspect in [100u32, 616, 1000] {
        for radius in [999u32, 1_000, 64_000] {
            expect_plain(rt, alloc, &charted, &radii(aspect, radius))?;
        }
        expect_plain(rt, alloc, &charted, &radii_of_bands(aspect, 0, 64_000, 0))?;
        expect_plain(
            rt,
            alloc,
            &charted,
            &radii_of_bands(aspect, 64_000, 0, 2_500),
        )?;
        expect_plain(
            rt,
            alloc,
            &charted,
            &radii_of_bands(aspect, 1_000, 2_500, 999),
        )?;
    }
    Ok(())
}

// Grids with holes at corners, at edges and inside, and with nodes that tie in charted depth and in depth.
const GRIDS: &str = "\
ncols 8 nrows 6 xllcenter 0 yllcenter 0 cellsize 0.001 nan 3.14 7 12 12 3.11 9 nan 5 5 5 5 5 5 5 5 16 15 14 13 12 11 10 9 nan 3.17 3.11 20 4.9 5 5.01 nan 2 30 2 30 2 30 2 30 nan 8 nan 8 nan 8 nan nan
ncols 2 nrows 9 xllcenter 0 yllcenter 0 cellsize 0.001 8 nan 15 3 nan nan 22 9 4 17 nan 31 12 4 19 2 nan 27
ncols 11 nrows 2 xllcenter 0 yllcenter 0 cellsize 0.001 5 19 nan 8 30 12 3 nan 21 16 nan nan 7 25 14 nan 9 33 2 18 11 6
ncols 7 nrows 7 xllcenter 0 yllcenter 0 cellsize 0.001 20 20 20 20 20 20 nan 20 40 20 20 20 3 20 20 20 20 nan 20 20 20 20 20 20 20 50 20 nan nan 20 2 20 20 20 20 20 20 20 20 20 60 20 20 nan 20 20 20 20 9";

#[test]
fn small_grids_have_the_soundings_of_the_plain_body(rt: HostRuntime) -> Result<(), Fail> {
    for text in GRIDS.lines() {
        match read_grid(rt.alloc(), text.as_bytes(), Sense::Down) {
            Ok(grid) => expect_plain_by_all(&rt, rt.alloc(), &grid)?,
            Err(_) => return Err(Fail::from("no grid")),
        }
    }
    Ok(())
}

// How many nodes a large grid has, 513 to a side.
const NODES: usize = 263_169;

// Which millimetre a node of the large grid is deep: each is so deep once.
fn shuffled(at: usize) -> usize {
    at.wrapping_mul(7_919) % NODES
}

fn large_grid(alloc: Global) -> Result<Grid, Fail> {
    let mut values = String::new(alloc);
    for at in 0..NODES {
        let millimetres = shuffled(at);
        let value = format!(in alloc; "{millimetres}e-3 ")?;
        values.push_str(value.as_str())?;
    }
    grid_of(alloc, 513, 513, values.as_str())
}

#[test]
fn all_nodes_of_a_large_grid_are_taken_by_depth(rt: HostRuntime) -> Result<(), Fail> {
    let grid = large_grid(rt.alloc())?;
    let charted = generalise(rt.alloc(), &grid, &reach(1000, 0), &Bands::usual())?;
    let chosen = select(rt.alloc(), &charted, &Levels::new(&[]), &radii(1000, 0))?;
    assert_eq!(rt; chosen.len(), NODES);
    for (millimetres, node) in chosen.iter().enumerate() {
        let at = node.row.wrapping_mul(513).wrapping_add(node.col);
        assert_eq!(rt; shuffled(at), millimetres);
    }
    Ok(())
}
