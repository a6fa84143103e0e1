// Devices that fail under `apply`: what is left of the cell is a prefix of the whole cell's bytes.
use chart_cli::Status;
use chart_dev::{CallKind, MemShelf, MemSink};
use std::alloc::{AllocError, Global};
use std::process::Abort;
use std::test::Fail;
use testing_cells::{SQUARE, file_of};
use testing_runs::{expect, outcome};

const WORDS: &str = "apply BASE UPDATE CELL";

const LINE: &str = "0|applied 1 records bytes 2304";

// The data records of an update that gives the square's depth area another shoaler depth.
const SHOALER: [u8; 201] = *b"\
00111 D     00053   550400010000300000DSID0005500003\x1e\x01\x00\x1e\x0a\x01\x00\x00\x00\x02\x05XX5ROW02.001\x1f1\x1f1\x1f202403012024030103.1\x01\x1f2.0\x1f\x02\x07\x00\x1f\x1e\
00090 D     00067   550400010000300000FRID0001300003ATTF0000700016\x1e\x02\x00\x1ed\x02\x00\x00\x00\x03\x01*\x00\x02\x00\x03\x1eW\x009.5\x1f\x1e";

// A shelf with the cell of the square, 2,303 bytes, and its update, 1,553. It takes 1,000 bytes a call.
fn square_and_update(alloc: Global) -> Result<MemShelf, AllocError> {
    let mut shelf = MemShelf::new(alloc, 1000);
    shelf.put_file("BASE", &file_of(alloc, &SQUARE)?)?;
    shelf.put_file("UPDATE", &file_of(alloc, &SHOALER)?)?;
    Ok(shelf)
}

// The whole cell, made where no call fails.
fn whole_cell(alloc: Global) -> Result<Vec<u8>, Fail> {
    let mut shelf = square_and_update(alloc)?;
    expect(alloc, &mut shelf, WORDS, LINE)?;
    let bytes = shelf.bytes_of("CELL").ok_or("no cell")?;
    Ok(Vec::from_slice(alloc, bytes)?)
}

// The nth call of a kind fails: nothing is put out, and the cell has these bytes, or isn't there.
fn expect_left(
    rt: &impl Abort,
    alloc: Global,
    kind: CallKind,
    n: u64,
    left: Option<&[u8]>,
) -> Result<(), Fail> {
    let mut shelf = square_and_update(alloc)?;
    shelf.fail(kind, n)?;
    let mut out = MemSink::new(alloc, 100);
    let status = outcome(alloc, &mut shelf, &mut out, WORDS)?;
    assert_eq!(rt; status, Status::Device);
    assert_eq!(rt; out.bytes().len(), 0);
    assert_eq!(rt; shelf.bytes_of("CELL"), left);
    Ok(())
}

// Each of the three appends of at most 1,000 bytes fails in turn.
#[test]
fn appends_of_a_revised_cell_that_fail(rt: HostRuntime) -> Result<(), Fail> {
    let whole = whole_cell(rt.alloc())?;
    assert_eq!(rt; whole.len(), 2304);
    expect_left(&rt, rt.alloc(), CallKind::Append, 1, Some(b""))?;
    expect_left(&rt, rt.alloc(), CallKind::Append, 2, whole.get(..1000))?;
    expect_left(&rt, rt.alloc(), CallKind::Append, 3, whole.get(..2000))
}

// The start fails, and each of the four reads of the base and the three of the update.
#[test]
fn a_base_and_an_update_that_are_not_read(rt: HostRuntime) -> Result<(), Fail> {
    expect_left(&rt, rt.alloc(), CallKind::Start, 1, None)?;
    for n in 1..8u64 {
        expect_left(&rt, rt.alloc(), CallKind::Read, n, None)?;
    }
    Ok(())
}

// One byte a call is put out, and the ninth call fails: the cell is whole.
#[test]
fn a_revised_cell_that_is_not_told(rt: HostRuntime) -> Result<(), Fail> {
    let alloc: Global = rt.alloc();
    let mut shelf = square_and_update(alloc)?;
    let mut out = MemSink::new(alloc, 1);
    out.fail(9)?;
    let status = outcome(alloc, &mut shelf, &mut out, WORDS)?;
    assert_eq!(rt; status, Status::Device);
    assert_eq!(rt; out.bytes(), b"applied ".as_slice());
    let whole = whole_cell(alloc)?;
    assert_eq!(rt; shelf.bytes_of("CELL"), Some(whole.as_slice()));
    Ok(())
}
