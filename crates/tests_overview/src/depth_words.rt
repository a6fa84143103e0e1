// Depths of words in every form: signs, points, digits behind the third, exponents, and no-data values.
use grid_reader::{GridFault, Sense, read_grid};
use std::alloc::Global;
use std::process::Abort;
use std::test::Fail;

/// Sixteen nodes, four of them a line.
const FORMS: &str = "ncols 4 nrows 4 xllcenter 0 yllcenter 0 cellsize 1
-0.0005 1.9999 +3. .5
-.0001 -9999.0 1e1 000000000000.1
0.12345678901 -0 9999 -9998.9999
-12000.000 0.0009999999 0.0010 -0.0010";

// A grid has these depths, row by row.
fn expect_depths(
    rt: &impl Abort,
    alloc: Global,
    sense: Sense,
    text: &str,
    wanted: &[Option<i32>],
) -> Result<(), Fail> {
    let grid = match read_grid(alloc, text.as_bytes(), sense) {
        Ok(grid) => grid,
        Err(_) => return Err(Fail::from("no grid")),
    };
    assert_eq!(rt; grid.depths().len(), wanted.len());
    for (at, depth) in grid.depths().iter().enumerate() {
        assert!(rt; wanted.get(at) == Some(depth), "node {at}");
    }
    Ok(())
}

#[test]
fn words_of_every_form_are_rounded_down(rt: HostRuntime) -> Result<(), Fail> {
    let down = [
        Some(-1),
        Some(1_999),
        Some(3_000),
        Some(500),
        Some(-1),
        None,
        Some(10_000),
        Some(100),
        Some(123),
        Some(0),
        Some(9_999_000),
        Some(-9_999_000),
        Some(-12_000_000),
        Some(0),
        Some(1),
        Some(-1),
    ];
    let up = [
        Some(0),
        Some(-2_000),
        Some(-3_000),
        Some(-500),
        Some(0),
        None,
        Some(-10_000),
        Some(-100),
        Some(-124),
        Some(0),
        Some(-9_999_000),
        Some(9_998_999),
        Some(12_000_000),
        Some(-1),
        Some(-1),
        Some(1),
    ];
    expect_depths(&rt, rt.alloc(), Sense::Down, FORMS, &down)?;
    expect_depths(&rt, rt.alloc(), Sense::Up, FORMS, &up)
}

// A no-data value with more than millimetres, one that is zero, one beyond all depths, and none.
#[test]
fn no_data_is_told_by_value(rt: HostRuntime) -> Result<(), Fail> {
    expect_depths(
        &rt,
        rt.alloc(),
        Sense::Down,
        "ncols 2 nrows 3 xllcenter 0 yllcenter 0 cellsize 1 nodata_value -0.0005 -0.0005 -.00050 -0.001 -0.0004 0.0005 -1",
        &[None, None, Some(-1), Some(-1), Some(0), Some(-1_000)],
    )?;
    expect_depths(
        &rt,
        rt.alloc(),
        Sense::Up,
        "ncols 2 nrows 2 xllcenter 0 yllcenter 0 cellsize 1 nodata_value -0 0 -0.000 0.0001 -0.0001",
        &[None, None, Some(-1), Some(0)],
    )?;
    expect_depths(
        &rt,
        rt.alloc(),
        Sense::Down,
        "ncols 2 nrows 2 xllcenter 0 yllcenter 0 cellsize 1 nodata_value -3.4028235e38 -3.4028235e+38 -9999 0 1.5",
        &[None, Some(-9_999_000), Some(0), Some(1_500)],
    )?;
    expect_depths(
        &rt,
        rt.alloc(),
        Sense::Down,
        "ncols 2 nrows 2 xllcenter 0 yllcenter 0 cellsize 1 nodata_value nan nan -9999 7 0",
        &[None, Some(-9_999_000), Some(7_000), Some(0)],
    )
}

// The word at byte 57 is a little more than 12,000 metres, which is rounded away from the limit upwards alone.
#[test]
fn the_limit_is_that_of_millimetres(rt: HostRuntime) -> Result<(), Fail> {
    let text = "ncols 2 nrows 2 xllcenter 0 yllcenter 0 cellsize 1 1 1 1 12000.0009";
    expect_depths(
        &rt,
        rt.alloc(),
        Sense::Down,
        text,
        &[Some(1_000), Some(1_000), Some(1_000), Some(12_000_000)],
    )?;
    match read_grid(rt.alloc(), text.as_bytes(), Sense::Up) {
        Err(GridFault::Depth(at)) => assert_eq!(&rt; at, 57),
        _ => return Err(Fail::from("no such fault")),
    }
    Ok(())
}
