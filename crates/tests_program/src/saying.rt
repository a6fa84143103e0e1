// Devices that fail under a command's reads and its lines.
use chart_cli::Status;
use chart_dev::{CallKind, MemShelf, MemSink};
use std::alloc::Global;
use std::process::Abort;
use std::test::Fail;
use testing_runs::{G1, NONE, expect, outcome, shelf_of};

// A run over these devices ends with the device's status, has put out these bytes, and leaves the grid.
fn expect_fault(
    rt: &impl Abort,
    alloc: Global,
    shelf: &mut MemShelf,
    mut out: MemSink,
    words: &str,
    said: &str,
) -> Result<(), Fail> {
    let grid = Vec::from_slice(alloc, shelf.bytes_of("G1").ok_or("no grid")?)?;
    let status = outcome(alloc, shelf, &mut out, words)?;
    assert_eq!(rt; status, Status::Device, "{words}");
    assert_eq!(rt; out.bytes(), said.as_bytes(), "{words}");
    assert_eq!(rt; shelf.bytes_of("G1").ok_or("G1 is gone")?, grid.as_slice());
    Ok(())
}

// The nth read of a command fails, over a shelf that has a cell too.
fn expect_unread(rt: &impl Abort, alloc: Global, words: &str, n: u64) -> Result<(), Fail> {
    let mut shelf = shelf_of(alloc, G1, "", NONE)?;
    shelf.put_file("CELL", &[b'0'; 300])?;
    shelf.fail(CallKind::Read, n)?;
    let out = MemSink::new(alloc, 100);
    expect_fault(rt, alloc, &mut shelf, out, words, "")
}

#[test]
fn reads_that_fail(rt: HostRuntime) -> Result<(), Fail> {
    expect_unread(&rt, rt.alloc(), "node G1 0 0", 1)?;
    expect_unread(&rt, rt.alloc(), "ground G1 S0 0 0", 3)?;
    expect_unread(&rt, rt.alloc(), "info CELL", 2)?;
    expect_unread(&rt, rt.alloc(), "query CELL 0 0", 2)
}

// An output that takes so many bytes a call, and whose nth call fails.
fn failing(alloc: Global, bytes_a_call: usize, n: u64) -> Result<MemSink, Fail> {
    let mut out = MemSink::new(alloc, bytes_a_call.max(1));
    out.fail(n)?;
    Ok(out)
}

#[test]
fn an_output_that_fails(rt: HostRuntime) -> Result<(), Fail> {
    let alloc: Global = rt.alloc();
    let mut shelf = shelf_of(alloc, G1, "", NONE)?;
    let out = failing(alloc, 100, 1)?;
    expect_fault(&rt, alloc, &mut shelf, out, "node G1 0 0", "")?;
    // one byte a call, and the tenth call fails
    let out = failing(alloc, 1, 10)?;
    expect_fault(&rt, alloc, &mut shelf, out, "node G1 0 0", "node 0 0 ")?;
    // the line of a refusal
    let out = failing(alloc, 100, 1)?;
    expect_fault(&rt, alloc, &mut shelf, out, "compile G1 G1 CELL", "")?;
    assert_eq!(rt; shelf.bytes_of("CELL").is_none(), true);
    Ok(())
}

// The line can't be put out, and the cell is whole: the same bytes as where it can.
#[test]
fn a_cell_that_is_not_told(rt: HostRuntime) -> Result<(), Fail> {
    let alloc: Global = rt.alloc();
    let mut shelf = shelf_of(alloc, G1, "", NONE)?;
    let out = failing(alloc, 100, 1)?;
    expect_fault(&rt, alloc, &mut shelf, out, "compile G1 S0 CELL", "")?;
    let line = "0|areas 1 contours 0 soundings 1 bytes 2303";
    expect(alloc, &mut shelf, "compile G1 S0 TOLD", line)?;
    let cell = shelf.bytes_of("CELL").ok_or("no cell")?;
    assert_eq!(rt; cell, shelf.bytes_of("TOLD").ok_or("no cell")?);
    Ok(())
}
