// Cutting blocks: by their sides, and by need.
use crate::crossings::{charted, grid_of};
use depth_rounding::Levels;
use face_fill::{by_need, need};
use rule_sheet::read_sheet;
use shoal_buffer::Charted;
use std::alloc::{AllocError, Global};
use std::process::Abort;
use std::test::Fail;
use tri_mesh::{Blocks, Rect};

fn rect(row: usize, col: usize, rows: usize, cols: usize) -> Rect {
    Rect {
        row,
        col,
        rows,
        cols,
    }
}

// Cuts a block, where there is one and it has two cells beside each other.
fn cut(rt: &impl Abort, blocks: &mut Blocks, block: u32) -> Result<(), Fail> {
    assert!(rt; block < blocks.count());
    let before = blocks.rect(block);
    assert!(rt; before.rows >= 2 || before.cols >= 2);
    blocks.halve(block)?;
    Ok(())
}

fn expect_rects(rt: &impl Abort, blocks: &Blocks, wanted: &[Rect]) {
    assert_eq!(rt; blocks.count() as usize, wanted.len());
    for (i, rect) in wanted.iter().enumerate() {
        let block = i as u32;
        assert!(rt; block < blocks.count());
        assert_eq!(rt; blocks.rect(block), *rect);
    }
}

// Seventeen by seventeen cells: cut between columns, and the eastern part across.
#[test]
fn blocks_are_cut(rt: HostRuntime) -> Result<(), Fail> {
    let mut blocks = Blocks::whole(rt.alloc(), 18, 18)?;
    expect_rects(&rt, &blocks, &[rect(0, 0, 17, 17)]);
    cut(&rt, &mut blocks, 0)?;
    expect_rects(&rt, &blocks, &[rect(0, 0, 17, 9), rect(0, 9, 17, 8)]);
    cut(&rt, &mut blocks, 1)?;
    expect_rects(
        &rt,
        &blocks,
        &[rect(0, 0, 17, 9), rect(0, 9, 9, 8), rect(9, 9, 8, 8)],
    );
    Ok(())
}

// Some words so many times.
fn repeated(alloc: Global, words: &str, times: usize) -> Result<String, AllocError> {
    let mut text = String::new(alloc);
    for _ in 0..times {
        text.push_str(words)?;
    }
    Ok(text)
}

// A sheet with levels at each decimetre from 1 to 20.
const TWENTY: &str = "version = 1
positive = 'down'
levels = [1, 2, 3, 4, 5, 6, 7, 8, 9, 10, 11, 12, 13, 14, 15, 16, 17, 18, 19, 20]
sounding_radius = [64000]
name = 'XX5FACES'
edition = 1
issued = '20240131'
agency = 7
scale = 12000
usage = 5
vertical_datum = 3
sounding_datum = 23
";

fn twenty(alloc: Global) -> Result<Levels, Fail> {
    match read_sheet(alloc, TWENTY.as_bytes()) {
        Ok(sheet) => Ok(sheet.levels),
        Err(_) => Err(Fail::from("no sheet")),
    }
}

// The need of the first columns of cells.
fn need_of(alloc: Global, charted: &Charted, levels: &Levels, cols: usize) -> Result<u64, Fail> {
    let grid = charted.grid();
    let (all_rows, all_cols) = (grid.rows() - 1, grid.cols() - 1);
    if cols < 1 || cols > all_cols {
        return Err(Fail::from("no such columns"));
    }
    let rect = Rect {
        row: 0,
        col: 0,
        rows: all_rows,
        cols,
    };
    Ok(need(alloc, charted, levels, rect)?)
}

// Two rows of nodes that are 0 and 100 metres deep in turn: 20 contours cross each cell.
#[test]
fn blocks_are_cut_by_need(rt: HostRuntime) -> Result<(), Fail> {
    let alloc = rt.alloc();
    let turns = repeated(alloc, "0 100 ", 512)?;
    let head = "ncols 1025 nrows 2 xllcenter 0 yllcenter 0 cellsize 0.0001";
    let text = format!(in alloc; "{head} {turns}0 {turns}0")?;
    let grid = grid_of(alloc, text.as_str())?;
    let charted = charted(alloc, &grid)?;
    let levels = twenty(alloc)?;
    assert_eq!(rt; need_of(alloc, &charted, &levels, 1024)?, 43_010);
    assert_eq!(rt; need_of(alloc, &charted, &levels, 512)?, 21_506);
    assert_eq!(rt; need_of(alloc, &charted, &levels, 256)?, 10_754);
    let blocks = by_need(alloc, &charted, &levels)?;
    assert_eq!(rt; blocks.count(), 4);
    for block in 0..blocks.count() {
        assert_eq!(rt; blocks.rect(block).cols, 256);
    }
    Ok(())
}
