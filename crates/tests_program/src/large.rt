// Rows that take too long for two builds of a program: the largest grid, four blocks, the limit of a file, the sample.
use chart_dev::MemShelf;
use std::alloc::{AllocError, Global};
use std::test::Fail;
use testing_runs::{Wrong, expect, holding, shelf_of};

const ONE_LEVEL: &str = "version = 1\nlevels = [50]\nsounding_radius = [64000]\n";

const TWENTY_LEVELS: &str =
    "version = 1\nlevels = [1, 2, 3, 4, 5, 6, 7, 8, 9, 10, 11, 12, 13, 14, 15, 16, 17, 18, 19, 20]\nsounding_radius = [64000]\n";

// A shelf with the largest grid, all of whose nodes lie at 10 metres.
fn largest(alloc: Global) -> Result<MemShelf, AllocError> {
    let head = "ncols 1025 nrows 1025 xllcenter 0 yllcenter 0 cellsize 0.0001\n";
    let mut values = String::new(alloc);
    for _ in 0..1025 * 1025 {
        values.push_str("10 ")?;
    }
    shelf_of(alloc, head, values.as_str(), ONE_LEVEL)
}

#[test]
fn the_largest_grid(rt: HostRuntime) -> Result<(), Wrong> {
    let alloc: Global = rt.alloc();
    let mut shelf = largest(alloc)?;
    let node = "0|node 0 1024 lon 0.1024000 lat 0.1024000 depth 10";
    expect(alloc, &mut shelf, "node G1 0 1024", node)?;
    // one edge with 4,096 points, and 304 soundings at least 64 rows apart
    let line = "0|areas 1 contours 0 soundings 304 bytes 38672";
    expect(alloc, &mut shelf, "compile G1 S0 CELL", line)
}

// Ridges that cross twenty levels from column to column are cut into four blocks, each with 5,121 areas. There are 40,960
// crossings on the border, and 6 ends of the three lines between blocks.
#[test]
fn four_blocks_by_need(rt: HostRuntime) -> Result<(), Wrong> {
    let alloc: Global = rt.alloc();
    let head = "ncols 1025\nnrows 2\nxllcenter 0\nyllcenter 0\ncellsize 0.0001\n";
    let mut values = String::new(alloc);
    for _ in 0..2 {
        for _ in 0..512 {
            values.push_str("0 100 ")?;
        }
        values.push_str("0\n")?;
    }
    let mut shelf = shelf_of(alloc, head, values.as_str(), TWENTY_LEVELS)?;
    let line = "0|areas 20484 contours 20480 soundings 16 bytes 16648590";
    expect(alloc, &mut shelf, "compile G1 S0 CELL", line)?;
    let holds =
        "0|name XX5ROW02.000 edition 1 scale 12000|nodes 1 40966 edges 61449 features 40969|areas 20484 contours 20480 soundings 16";
    expect(alloc, &mut shelf, "info CELL", holds)
}

// A grid's file of one byte more than it may have.
#[test]
fn a_file_past_the_limit(rt: HostRuntime) -> Result<(), Wrong> {
    let alloc: Global = rt.alloc();
    let mut text = Vec::new(alloc);
    text.resize(67_108_865, b' ')?;
    let mut shelf = holding(alloc, 100_000, "G1", &text)?;
    expect(alloc, &mut shelf, "node G1 0 0", "1|refused grid large")
}

#[test]
fn the_sample(rt: HostRuntime) -> Result<(), Fail> {
    let alloc: Global = rt.alloc();
    let mut shelf = MemShelf::new(alloc, 1_000_000);
    expect(alloc, &mut shelf, "sample 1 CELL", "0|areas ..")?;
    expect(alloc, &mut shelf, "sample 1 AGAIN", "0|areas ..")?;
    let cell = shelf.bytes_of("CELL").ok_or("no cell")?;
    assert_eq!(rt; cell, shelf.bytes_of("AGAIN").ok_or("no cell")?);
    let holds = "0|name XX5SMPLE.000 edition 1 scale 12000|..";
    expect(alloc, &mut shelf, "info CELL", holds)?;
    Ok(())
}
