// Why bytes are no update.
use std::alloc::Global;
use std::process::Abort;
use std::test::Fail;
use update_reader::{Update, UpdateFault, read_update};

// An update of a leader alone, a data set record at 24, a record at 135 that inserts a point into edge 1, and one at 243 that
// gives feature 2 an attribute and another pointer.
const UPDATE: [u8; 376] = *b"\
00024 L                 \
00111 D     00053   550400010000300000DSID0005500003\x1e\x01\x00\x1e\x0a\x01\x00\x00\x00\x02\x05XX5ROW02.001\x1f1\x1f1\x1f202403012024030103.1\x01\x1f2.0\x1f\x01\x07\x00\x1f\x1e\
00108 D     00081   550400010000300000VRID0000900003SGCC0000600012SG2D0000900018\x1e\x02\x00\x1e\x82\x01\x00\x00\x00\x02\x00\x03\x1e\x01\x04\x00\x01\x00\x1e\x05\x00\x00\x00\x06\x00\x00\x00\x1e\
00133 D     00095   550400010000300000FRID0001300003ATTF0000700016FSPC0000600023FSPT0000900029\x1e\x03\x00\x1ed\x02\x00\x00\x00\x03\x01*\x00\x02\x00\x03\x1eW\x009.5\x1f\x1e\x03\x01\x00\x01\x00\x1e\x82\x01\x00\x00\x00\x01\x03\xff\x1e";

// Changes of its bytes, one line each: the fault's number (0 where there is none), the record's offset (or the number of
// changes), and each changed byte as its offset and its value.
//
// Nothing is changed. The last record is longer than the file; a leader without D; a position that isn't the sum of the
// lengths; a field without its end.
// No DSID leads the first record, nor VRID the second; an RCNM of 131; VRID twice, FSPC twice; an inserted feature without
// FOID.
// EXPP 1; RUIN 4; an inserted edge with SGCC; CCUI 4; a point without SGCC; a VRPC; RCNM 101 of a feature; a pointer without
// FSPC; FSUI 0.
// Both are deleted, and so their instructions aren't looked at.
const CHANGES: &str = "\
0 2
1 243 247=52
2 135 141=76
3 135 186=52
4 135 227=0
5 24 65=88
5 135 176=88
5 135 219=131
5 135 187=86 188=82 189=73 190=68
5 243 295=70 296=83 297=80 298=67
5 243 352=1
6 24 85=1
6 135 226=4
6 135 226=1
6 135 228=4
6 135 190=88
6 135 187=86 188=82 189=80 190=67
6 243 341=101
6 243 312=88
6 243 361=0
0 2 226=2 228=4 352=2 361=4
";

// An answer as in a line.
fn seen(answer: Result<Update, UpdateFault>) -> (u8, usize) {
    match answer {
        Ok(update) => (0, update.changes.as_slice().len()),
        Err(UpdateFault::Short(at)) => (1, at),
        Err(UpdateFault::Leader(at)) => (2, at),
        Err(UpdateFault::Directory(at)) => (3, at),
        Err(UpdateFault::Field(at)) => (4, at),
        Err(UpdateFault::Kind(at)) => (5, at),
        Err(UpdateFault::Value(at)) => (6, at),
        Err(_) => (15, 0),
    }
}

// Changes a byte of the file.
fn change(file: &mut [u8], word: &str) -> Result<(), Fail> {
    let (place, byte) = word.split_once('=').ok_or("no byte")?;
    let place: usize = place.parse()?;
    if place < file.len() {
        file[place] = byte.parse()?;
    }
    Ok(())
}

fn expect(rt: &impl Abort, alloc: Global, line: &str) -> Result<(), Fail> {
    let mut words = line.split(' ');
    let number: u8 = words.next().ok_or("no number")?.parse()?;
    let at: usize = words.next().ok_or("no offset")?.parse()?;
    let mut file = UPDATE;
    while let Some(word) = words.next() {
        change(&mut file, word)?;
    }
    assert_eq!(rt; seen(read_update(alloc, &file)), (number, at));
    Ok(())
}

#[test]
fn updates_are_refused_with_their_first_fault(rt: HostRuntime) -> Result<(), Fail> {
    for line in CHANGES.lines() {
        expect(&rt, rt.alloc(), line)?;
    }
    Ok(())
}
