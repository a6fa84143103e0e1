// Devices that fail under `compile` and `overview`: what is left of the cell is a prefix of the whole cell's bytes.
use chart_cli::Status;
use chart_dev::{CallKind, MemShelf, MemSink};
use std::alloc::{AllocError, Global};
use std::process::Abort;
use std::test::Fail;
use testing_runs::{G1, NONE, THREE, expect, outcome, shelf_of};

// A command that makes a cell of a grid of at most 100 bytes and a sheet of 191.
#[derive(Clone, Copy)]
enum Maker {
    Compile,
    Overview,
}

impl Maker {
    fn words(self) -> &'static str {
        match self {
            Maker::Compile => "compile G1 S0 CELL",
            Maker::Overview => "overview G1 S0 2 CELL",
        }
    }

    fn line(self) -> &'static str {
        match self {
            Maker::Compile => "0|areas 1 contours 0 soundings 1 bytes 2303",
            Maker::Overview => "0|areas 1 contours 0 soundings 1 bytes 2301",
        }
    }

    fn shelf(self, alloc: Global) -> Result<MemShelf, AllocError> {
        match self {
            Maker::Compile => shelf_of(alloc, G1, "", NONE),
            Maker::Overview => shelf_of(alloc, THREE, "10 10 10\n10 4 10\n10 10 10\n", NONE),
        }
    }
}

// The whole cell, made where no call fails.
fn whole_cell(alloc: Global, maker: Maker) -> Result<Vec<u8>, Fail> {
    let mut shelf = maker.shelf(alloc)?;
    expect(alloc, &mut shelf, maker.words(), maker.line())?;
    let bytes = shelf.bytes_of("CELL").ok_or("no cell")?;
    Ok(Vec::from_slice(alloc, bytes)?)
}

// The shelf after a run over it in which a call failed and nothing was put out.
fn after_a_fault(
    rt: &impl Abort,
    alloc: Global,
    maker: Maker,
    mut shelf: MemShelf,
) -> Result<MemShelf, Fail> {
    let mut out = MemSink::new(alloc, 100);
    let status = outcome(alloc, &mut shelf, &mut out, maker.words())?;
    assert_eq!(rt; status, Status::Device);
    assert_eq!(rt; out.bytes().len(), 0);
    Ok(shelf)
}

// The cell is there with so many of the whole cell's first bytes.
fn expect_front(
    rt: &impl Abort,
    shelf: &MemShelf,
    whole: &[u8],
    length: usize,
) -> Result<(), Fail> {
    let cell = shelf.bytes_of("CELL").ok_or("no cell")?;
    assert_eq!(rt; cell.len(), length);
    assert_eq!(rt; whole.starts_with(cell), true);
    Ok(())
}

// The nth append fails: the cell holds what came before, and a second run makes it whole.
fn expect_cut(
    rt: &impl Abort,
    alloc: Global,
    maker: Maker,
    whole: &[u8],
    n: u64,
) -> Result<(), Fail> {
    let mut shelf = maker.shelf(alloc)?;
    shelf.fail(CallKind::Append, n)?;
    let mut shelf = after_a_fault(rt, alloc, maker, shelf)?;
    let before = (n.saturating_sub(1) as usize).saturating_mul(100);
    expect_front(rt, &shelf, whole, before)?;
    expect(alloc, &mut shelf, maker.words(), maker.line())?;
    expect_front(rt, &shelf, whole, whole.len())
}

// Each of the 24 appends of at most 100 bytes fails in turn.
fn expect_cuts(rt: &impl Abort, alloc: Global, maker: Maker, length: usize) -> Result<(), Fail> {
    let whole = whole_cell(alloc, maker)?;
    assert_eq!(rt; whole.len(), length);
    for n in 1..25u64 {
        expect_cut(rt, alloc, maker, &whole, n)?;
    }
    Ok(())
}

#[test]
fn appends_that_fail(rt: HostRuntime) -> Result<(), Fail> {
    expect_cuts(&rt, rt.alloc(), Maker::Compile, 2303)?;
    expect_cuts(&rt, rt.alloc(), Maker::Overview, 2301)
}

// A call before the first append fails: a cell that was there stays as it was, and none is begun.
fn expect_kept(
    rt: &impl Abort,
    alloc: Global,
    maker: Maker,
    kind: CallKind,
    n: u64,
) -> Result<(), Fail> {
    let mut shelf = maker.shelf(alloc)?;
    shelf.put_file("CELL", b"old")?;
    shelf.fail(kind, n)?;
    let shelf = after_a_fault(rt, alloc, maker, shelf)?;
    expect_front(rt, &shelf, b"old", 3)
}

fn expect_none(
    rt: &impl Abort,
    alloc: Global,
    maker: Maker,
    kind: CallKind,
    n: u64,
) -> Result<(), Fail> {
    let mut shelf = maker.shelf(alloc)?;
    shelf.fail(kind, n)?;
    let shelf = after_a_fault(rt, alloc, maker, shelf)?;
    assert_eq!(rt; shelf.bytes_of("CELL").is_none(), true);
    Ok(())
}

// The start fails, and each of the three reads of the sheet and the two of the grid.
fn expect_no_cell(rt: &impl Abort, alloc: Global, maker: Maker) -> Result<(), Fail> {
    expect_kept(rt, alloc, maker, CallKind::Start, 1)?;
    expect_none(rt, alloc, maker, CallKind::Start, 1)?;
    for n in 1..6u64 {
        expect_kept(rt, alloc, maker, CallKind::Read, n)?;
        expect_none(rt, alloc, maker, CallKind::Read, n)?;
    }
    Ok(())
}

#[test]
fn starts_and_reads_that_fail(rt: HostRuntime) -> Result<(), Fail> {
    expect_no_cell(&rt, rt.alloc(), Maker::Compile)?;
    expect_no_cell(&rt, rt.alloc(), Maker::Overview)
}

// With room for the cell and its line no call fails, and the cell has the same bytes.
#[test]
fn devices_with_room(rt: HostRuntime) -> Result<(), Fail> {
    let alloc: Global = rt.alloc();
    let whole = whole_cell(alloc, Maker::Compile)?;
    let mut shelf = Maker::Compile.shelf(alloc)?;
    shelf.put_file("CELL", b"")?;
    shelf.keep_room("CELL", 2303)?;
    let mut out = MemSink::new(alloc, 100);
    out.keep_room(100)?;
    let status = outcome(alloc, &mut shelf, &mut out, Maker::Compile.words())?;
    assert_eq!(rt; status, Status::Done);
    assert_eq!(rt; shelf.faults(), 0);
    assert_eq!(rt; out.faults(), 0);
    expect_front(&rt, &shelf, &whole, whole.len())
}
