// Devices in memory: calls that fail where they are made to, room that is kept.
use chart_dev::{
    CallKind, Failed, MemShelf, MemSink, ReadFault, Shelf, Sink, append_all, put_all, read_whole,
    write_whole,
};
use std::alloc::Global;
use std::process::Abort;
use std::test::Fail;

// Sixteen bytes, on devices that take five a call.
const TEXT: &[u8] = b"depth 12 metres\n";

// A shelf with the text as GRID, and an old cell.
fn shelf_with(alloc: Global) -> Result<MemShelf, Fail> {
    let mut shelf = MemShelf::new(alloc, 5);
    shelf.put_file("GRID", TEXT)?;
    shelf.put_file("CELL", b"old")?;
    Ok(shelf)
}

// The bytes of a name are these.
fn expect_bytes(rt: &impl Abort, shelf: &MemShelf, name: &str, bytes: &[u8]) -> Result<(), Fail> {
    let found = shelf.bytes_of(name).ok_or("the name is gone")?;
    assert_eq!(rt; found, bytes);
    Ok(())
}

// The nth read fails, or where there is no such read, all bytes come.
fn expect_read(rt: &impl Abort, alloc: Global, nth: u64, fails: bool) -> Result<(), Fail> {
    let mut shelf = shelf_with(alloc)?;
    shelf.fail(CallKind::Read, nth)?;
    match read_whole(alloc, &mut shelf, "GRID", 16) {
        Ok(bytes) => assert_eq!(rt; bytes.as_slice(), TEXT, "{nth}"),
        Err(fault) => assert_eq!(rt; fault, ReadFault::Device, "{nth}"),
    }
    assert_eq!(rt; shelf.faults() == 1, fails, "{nth}");
    expect_bytes(rt, &shelf, "GRID", TEXT)
}

// Four turns read sixteen bytes in fives and one, a fifth finds the end.
#[test]
fn reads_fail_where_they_are_made_to(rt: HostRuntime) -> Result<(), Fail> {
    for nth in 1..6u64 {
        expect_read(&rt, rt.alloc(), nth, true)?;
    }
    expect_read(&rt, rt.alloc(), 6, false)?;
    expect_read(&rt, rt.alloc(), 0, false)
}

// What a read of a name up to a limit answers: how many bytes, or why none. It is no fault of the shelf.
fn length_of(alloc: Global, name: &str, limit: u8) -> Result<Result<usize, ReadFault>, Fail> {
    let mut shelf = shelf_with(alloc)?;
    shelf.put_file("EMPTY", b"")?;
    let read = read_whole(alloc, &mut shelf, name, u64::from(limit));
    if shelf.faults() > 0 {
        return Err(Fail::new("a fault was counted"));
    }
    Ok(read.map(|bytes| bytes.len()))
}

#[test]
fn limits_and_missing_names(rt: HostRuntime) -> Result<(), Fail> {
    let alloc: Global = rt.alloc();
    assert_eq!(rt; length_of(alloc, "GRID", 15)?, Err(ReadFault::TooLarge));
    assert_eq!(rt; length_of(alloc, "GRID", 16)?, Ok(16));
    assert_eq!(rt; length_of(alloc, "EMPTY", 0)?, Ok(0));
    assert_eq!(rt; length_of(alloc, "SHEET", 16)?, Err(ReadFault::Device));
    Ok(())
}

// The nth call of a kind fails: the cell has these bytes then, and all of the text after a second try.
fn expect_written(
    rt: &impl Abort,
    alloc: Global,
    kind: CallKind,
    nth: u64,
    left: &[u8],
) -> Result<(), Fail> {
    let mut shelf = shelf_with(alloc)?;
    shelf.fail(kind, nth)?;
    assert_eq!(rt; write_whole(&mut shelf, "CELL", TEXT), Err(Failed), "{nth}");
    assert_eq!(rt; shelf.faults(), 1);
    expect_bytes(rt, &shelf, "CELL", left)?;
    expect_bytes(rt, &shelf, "GRID", TEXT)?;
    assert_eq!(rt; write_whole(&mut shelf, "CELL", TEXT), Ok(()), "{nth}");
    expect_bytes(rt, &shelf, "CELL", TEXT)
}

// The text goes in pieces of five, so the fourth append has its last byte.
#[test]
fn starts_and_appends_fail_where_they_are_made_to(rt: HostRuntime) -> Result<(), Fail> {
    expect_written(&rt, rt.alloc(), CallKind::Start, 1, b"old")?;
    expect_written(&rt, rt.alloc(), CallKind::Append, 1, b"")?;
    expect_written(&rt, rt.alloc(), CallKind::Append, 4, b"depth 12 metres")
}

#[test]
fn what_fits_into_a_kept_room_is_added(rt: HostRuntime) -> Result<(), Fail> {
    let mut shelf = MemShelf::new(rt.alloc(), 5);
    shelf.put_file("CELL", b"old")?;
    shelf.keep_room("CELL", 32)?;
    expect_bytes(&rt, &shelf, "CELL", b"old")?;
    assert_eq!(rt; shelf.start("CELL"), Ok(()));
    assert_eq!(rt; append_all(&mut shelf, "CELL", TEXT), Ok(()));
    assert_eq!(rt; append_all(&mut shelf, "CELL", TEXT), Ok(()));
    assert_eq!(rt; shelf.faults(), 0);
    expect_bytes(&rt, &shelf, "CELL", b"depth 12 metres\ndepth 12 metres\n")
}

// The nth call of an output fails: it has taken these bytes.
fn expect_taken(rt: &impl Abort, alloc: Global, nth: u64, taken: &[u8]) -> Result<(), Fail> {
    let mut out = MemSink::new(alloc, 5);
    out.fail(nth)?;
    assert_eq!(rt; put_all(&mut out, TEXT), Err(Failed), "{nth}");
    assert_eq!(rt; out.faults(), 1);
    assert_eq!(rt; out.bytes(), taken, "{nth}");
    Ok(())
}

#[test]
fn puts_fail_where_they_are_made_to(rt: HostRuntime) -> Result<(), Fail> {
    expect_taken(&rt, rt.alloc(), 1, b"")?;
    expect_taken(&rt, rt.alloc(), 4, b"depth 12 metres")?;
    let mut out = MemSink::new(rt.alloc(), 5);
    out.keep_room(16)?;
    assert_eq!(rt; put_all(&mut out, TEXT), Ok(()));
    assert_eq!(rt; out.bytes(), TEXT);
    assert_eq!(rt; out.put(b"seventeen"), Ok(5));
    Ok(())
}
