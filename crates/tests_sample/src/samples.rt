// The sample against grid texts, sheets and depths worked out by hand.
use crate::sheets::told;
use chart_sample::{sample_grid, sample_sheet};
use depth_grid::{Grid, NodeId};
use grid_reader::{Sense, read_grid};
use rule_sheet::read_sheet;
use std::alloc::Global;
use std::test::Fail;

// A sheet of the same values.
const SHEET: &str = r#"version = 1
positive = "down"
levels = [0, 20, 50, 80, 100, 120, 150, 200, 250, 300, 350, 400]
aspect = 616
disc_radius = 3000
sounding_radius = [6000]
name = "XX5SMPLE"
edition = 1
issued = "20240131"
agency = 7
scale = 12000
usage = 5
vertical_datum = 3
sounding_datum = 23
"#;

// The depth of a node, none where there is no such node.
fn depth_at(grid: &Grid, row: usize, col: usize) -> Option<i32> {
    if row >= grid.rows() || col >= grid.cols() {
        return None;
    }
    grid.depth(NodeId { row, col })
}

// Where a column and a row lie, nowhere if there are none such.
fn position_at(grid: &Grid, row: usize, col: usize) -> Option<(i32, i32)> {
    if row >= grid.rows() || col >= grid.cols() {
        return None;
    }
    Some((grid.x(col), grid.y(row)))
}

// A grid read from a text, all of whose nodes lie at 0.
fn flat_grid(alloc: Global) -> Result<Grid, Fail> {
    let mut text = format!(in alloc;
        "ncols 401 nrows 301 xllcenter 4 yllcenter 52 cellsize 0.0001"
    )?;
    for _ in 0..301 * 401 {
        text.push_str(" 0")?;
    }
    match read_grid(alloc, text.as_bytes(), Sense::Down) {
        Ok(grid) => Ok(grid),
        Err(_) => Err(Fail::from("no grid")),
    }
}

// The least and the greatest depth, and how many nodes have none.
fn extent(grid: &Grid) -> (i32, i32, u64) {
    let mut least = 12_000_000;
    let mut greatest = -12_000_000;
    let mut bare = 0u64;
    for depth in grid.depths() {
        match depth {
            Some(depth) => {
                if *depth < least {
                    least = *depth;
                }
                if *depth > greatest {
                    greatest = *depth;
                }
            }
            None => bare = bare.saturating_add(1),
        }
    }
    (least, greatest, bare)
}

// The sample's number, a row, a column, and the depth of the node there in millimetres.
const DEPTHS: &str = "0 0 0 -1000
0 0 1 -679
0 1 0 444
0 300 400 42481
1 0 0 -898
1 150 200 21195
7 99 239 23233
4294967295 300 400 41269
0 120 200 20132
0 100 200 none
0 119 239 none";

fn word(line: &str, k: usize) -> &str {
    line.split(' ').nth(k).unwrap_or("")
}

#[test]
fn depths_are_those_worked_out_by_hand(rt: HostRuntime) -> Result<(), Fail> {
    for line in DEPTHS.lines() {
        let n = word(line, 0).parse::<u32>().unwrap_or(9);
        let row = word(line, 1).parse::<usize>().unwrap_or(999);
        let col = word(line, 2).parse::<usize>().unwrap_or(999);
        let grid = sample_grid(rt.alloc(), n)?;
        let wanted = word(line, 3).parse::<i32>().ok();
        assert_eq!(rt; depth_at(&grid, row, col), wanted, "{line}");
    }
    Ok(())
}

#[test]
fn depths_keep_their_bounds(rt: HostRuntime) -> Result<(), Fail> {
    for n in [0u32, 1, 4_294_967_295] {
        let grid = sample_grid(rt.alloc(), n)?;
        let (least, greatest, bare) = extent(&grid);
        assert!(rt; -1000 <= least && greatest <= 42_999, "{n}");
        assert_eq!(rt; bare, 20 * 40, "{n}");
    }
    Ok(())
}

#[test]
fn positions_are_those_of_a_grid_text(rt: HostRuntime) -> Result<(), Fail> {
    let grid = sample_grid(rt.alloc(), 3)?;
    let read = flat_grid(rt.alloc())?;
    assert!(rt; grid.rows() == 301 && grid.cols() == 401);
    for k in 0..401usize {
        let row = k % 301;
        assert_eq!(rt;
            position_at(&grid, row, k),
            position_at(&read, row, k),
            "{k}"
        );
    }
    assert_eq!(rt; position_at(&grid, 300, 0), Some((40_000_000, 520_000_000)));
    assert_eq!(rt; position_at(&grid, 0, 400), Some((40_400_000, 520_300_000)));
    assert_eq!(rt; position_at(&grid, 299, 1), Some((40_000_992, 520_000_992)));
    Ok(())
}

#[test]
fn the_sheet_is_that_of_a_text(rt: HostRuntime) -> Result<(), Fail> {
    let Ok(read) = read_sheet(rt.alloc(), SHEET.as_bytes()) else {
        return Err(Fail::from("no sheet"));
    };
    let sample = sample_sheet();
    let one = told(rt.alloc(), &sample)?;
    let two = told(rt.alloc(), &read)?;
    assert_eq!(rt; one.as_str(), two.as_str());
    assert_eq!(rt; sample.levels.count(), read.levels.count());
    for depth in [-1, 0, 19, 20, 79, 80, 119, 120, 199, 399, 400] {
        assert_eq!(rt;
            sample.levels.band(depth),
            read.levels.band(depth),
            "{depth}"
        );
    }
    Ok(())
}
