// Overviews of grids with holes, with borders that no coarse row or column meets, and of the
// largest grid.
use depth_grid::Grid;
use grid_reader::{Sense, read_grid};
use overview_grid::overview;
use std::alloc::{AllocError, Global};
use std::process::Abort;
use std::test::Fail;

fn grid_of(alloc: Global, text: &str) -> Result<Grid, Fail> {
    match read_grid(alloc, text.as_bytes(), Sense::Down) {
        Ok(grid) => Ok(grid),
        Err(_) => Err(Fail::from("no grid")),
    }
}

fn overview_of(alloc: Global, grid: &Grid, factor: u32) -> Result<Grid, Fail> {
    if factor < 1 || factor as usize >= grid.rows() || factor as usize >= grid.cols() {
        return Err(Fail::from("no factor"));
    }
    Ok(overview(alloc, grid, factor)?)
}

// Two grids have the same positions and depths.
fn expect_same(rt: &impl Abort, found: &Grid, wanted: &Grid) {
    assert_eq!(rt; found.cols(), wanted.cols());
    assert_eq!(rt; found.rows(), wanted.rows());
    for col in 0..found.cols() {
        assert!(rt;
            col < wanted.cols() && found.x(col) == wanted.x(col),
            "column {col}"
        );
    }
    for row in 0..found.rows() {
        assert!(rt;
            row < wanted.rows() && found.y(row) == wanted.y(row),
            "row {row}"
        );
    }
    for (at, depth) in found.depths().iter().enumerate() {
        assert!(rt; wanted.depths().get(at) == Some(depth), "node {at}");
    }
}

// The overview of a grid is another grid.
fn expect_overview(
    rt: &impl Abort,
    alloc: Global,
    factor: u32,
    fine: &str,
    coarse: &str,
) -> Result<(), Fail> {
    let grid = grid_of(alloc, fine)?;
    let found = overview_of(alloc, &grid, factor)?;
    expect_same(rt, &found, &grid_of(alloc, coarse)?);
    Ok(())
}

#[test]
fn overviews_have_the_least_depths_of_neighbourhoods(rt: HostRuntime) -> Result<(), Fail> {
    let alloc = rt.alloc();
    expect_overview(
        &rt,
        alloc,
        2,
        "ncols 3 nrows 3 xllcenter 0 yllcenter 0 cellsize 0.0032 10 10 10 10 4 10 10 10 10",
        "ncols 2 nrows 2 xllcenter 0 yllcenter 0 cellsize 0.0064 4 4 4 4",
    )?;
    expect_overview(
        &rt,
        alloc,
        2,
        "ncols 3 nrows 3 xllcenter 0 yllcenter 0 cellsize 0.0032 10 10 10 10 nan 10 10 10 10",
        "ncols 2 nrows 2 xllcenter 0 yllcenter 0 cellsize 0.0064 nan nan nan nan",
    )?;
    expect_overview(
        &rt,
        alloc,
        2,
        "ncols 6 nrows 4 xllcenter 0 yllcenter 0 cellsize 0.0032 9 8 7 6 5 4 9 9 9 9 9 nan 9 9 9 9 9 9 1 9 9 9 9 9",
        "ncols 3 nrows 2 xllcenter 0 yllcenter 0.0032 cellsize 0.0064 7 5 nan 1 1 nan",
    )?;
    expect_overview(
        &rt,
        alloc,
        3,
        "ncols 5 nrows 4 xllcenter 0 yllcenter 0 cellsize 0.0032 20 20 20 20 2 20 20 20 20 20 20 20 20 20 20 6 20 20 20 20",
        "ncols 2 nrows 2 xllcenter 0 yllcenter 0 cellsize 0.0096 6 2 6 2",
    )?;
    expect_overview(
        &rt,
        alloc,
        3,
        "ncols 8 nrows 5 xllcenter 0 yllcenter 0 cellsize 0.0032 10 10 10 10 -2 10 10 10 10 10 10 10 10 10 10 10 10 10 10 10 10 10 10 10 10 10 10 10 10 10 10 10 3 10 10 10 10 10 10 nan",
        "ncols 3 nrows 2 xllcenter 0 yllcenter 0.0032 cellsize 0.0096 10 -2 -2 3 -2 nan",
    )
}

// A level grid of 1,025 nodes a side, with a shoal in row 292 and column 900, and without data in
// its last node.
fn large_grid(alloc: Global) -> Result<String, AllocError> {
    let mut text = format!(in alloc;
        "ncols 1025 nrows 1025 xllcenter 0 yllcenter 0 cellsize 0.001"
    )?;
    for at in 0..1025 * 1025usize {
        let value = match at {
            300_200 => " 5",
            1_050_624 => " nan",
            _ => " 20",
        };
        text.push_str(value)?;
    }
    Ok(text)
}

// Which of 17 rows and columns of the overview have the shoal in their neighbourhood: those at
// rows 256 and 320 and columns 896 and 960; and the last node: those at 960 and 1,024.
#[test]
fn the_largest_grid_has_an_overview(rt: HostRuntime) -> Result<(), Fail> {
    let text = large_grid(rt.alloc())?;
    let grid = grid_of(rt.alloc(), text.as_str())?;
    let coarse = overview_of(rt.alloc(), &grid, 64)?;
    assert_eq!(&rt; coarse.depths().len(), 17 * 17);
    for (at, depth) in coarse.depths().iter().enumerate() {
        let wanted = match (at / 17, at % 17) {
            (4 | 5, 14 | 15) => Some(5_000),
            (15 | 16, 15 | 16) => None,
            _ => Some(20_000),
        };
        assert!(&rt; *depth == wanted, "node {at}");
    }
    Ok(())
}
