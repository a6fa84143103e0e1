// Records of ISO/IEC 8211, read and written.
use iso8211_codec::{Field, Records, record_len, write_rec};
use s57_records::{Vrid, Vrpt, close, push_sg2d, push_vrpt, read_vrid, sg2d, vrpt, write_vrid};
use std::alloc::{AllocError, Global};
use std::test::Fail;

// The record of an edge that runs clockwise round a square of 32,000 units, after a first record of its leader alone.
fn edge_file() -> [u8; 161] {
    *b"00024 L                 00137 D     00081   5504\
00010000300000VRID0000900003VRPT0001900012SG2D0002500031\x1e\
\x05\x00\x1e\
\x82\x01\x00\x00\x00\x01\x00\x01\x1e\
\x78\x01\x00\x00\x00\xff\xff\x01\xff\x78\x01\x00\x00\x00\xff\xff\x02\xff\x1e\
\x00\x7d\x00\x00\x00\x00\x00\x00\x00\x7d\x00\x00\x00\x7d\x00\x00\x00\x00\x00\x00\x00\x7d\x00\x00\x1e"
}

// The fields of the edge's record, one after the other.
fn edge_bodies(alloc: Global) -> Result<Vec<u8>, AllocError> {
    let mut out = vec![in alloc; 5u8, 0, 0x1e]?;
    let name = Vrid {
        rcnm: 130,
        rcid: 1,
        rver: 1,
        ruin: 1,
    };
    write_vrid(&mut out, &name)?;
    for topi in [1, 2] {
        push_vrpt(&mut out, &pointer(topi))?;
    }
    close(&mut out)?;
    for (y, x) in [(32000, 0), (32000, 32000), (0, 32000)] {
        push_sg2d(&mut out, y, x)?;
    }
    close(&mut out)?;
    Ok(out)
}

fn pointer(topi: u8) -> Vrpt {
    Vrpt {
        rcnm: 120,
        rcid: 1,
        ornt: 255,
        usag: 255,
        topi,
        mask: 255,
    }
}

// A record of two fields.
fn small_record(alloc: Global) -> Result<Vec<u8>, AllocError> {
    let mut out = vec![in alloc; 7u8]?;
    write_rec(
        &mut out,
        &[*b"0001", *b"ABCD"],
        &[3, 1],
        b"\x05\x00\x1e\x1e",
    )?;
    Ok(out)
}

#[test]
fn an_edge_is_written_byte_for_byte(rt: HostRuntime) -> Result<(), Fail> {
    let file = edge_file();
    let bodies = edge_bodies(rt.alloc())?;
    assert_eq!(rt; bodies.as_slice(), &file[105..161]);
    assert_eq!(rt; record_len(&[3, 9, 19, 25]), 137);
    let out = small_record(rt.alloc())?;
    let want = b"\x0700057 D     00053   550400010000300000ABCD0000100003\x1e\x05\x00\x1e\x1e";
    assert_eq!(rt; out.as_slice(), want.as_slice());
    Ok(())
}

// Field k of the first data record.
fn field_of(file: &[u8], k: usize) -> Option<Field<'_>> {
    let mut records = Records::new(file).ok()?;
    let record = records.next_rec()?.ok()?;
    if k < record.count() {
        Some(record.field(k))
    } else {
        None
    }
}

#[test]
fn fields_are_read_again(rt: HostRuntime) -> Result<(), Fail> {
    let file = edge_file();
    assert_eq!(rt;
        field_of(&file, 0).ok_or("0001")?.body,
        b"\x05\x00".as_slice()
    );
    let name = read_vrid(field_of(&file, 1).ok_or("VRID")?.body).ok_or("VRID")?;
    assert_eq!(rt;
        (name.rcnm, name.rcid, name.rver, name.ruin),
        (130, 1, 1, 1)
    );
    let pointers = field_of(&file, 2).ok_or("VRPT")?;
    assert_eq!(rt; pointers.tag, *b"VRPT");
    assert_eq!(rt; vrpt(pointers.body, 0), Some(pointer(1)));
    assert_eq!(rt; vrpt(pointers.body, 1), Some(pointer(2)));
    assert_eq!(rt; vrpt(pointers.body, 2), None);
    let points = field_of(&file, 3).ok_or("SG2D")?.body;
    assert_eq!(rt; sg2d(points, 0), Some((32000, 0)));
    assert_eq!(rt; sg2d(points, 2), Some((0, 32000)));
    assert_eq!(rt; sg2d(points, 3), None);
    assert!(rt; field_of(&file, 4).is_none());
    // two digits for a length, one for a position; NATF isn't closed, and has all its bytes
    let other =
        b"00024 L                 00051 D     00039   2104NATF060ABCD066\x1eCD\x1eEFGHIJKL\x1e";
    assert_eq!(rt;
        field_of(other, 0).ok_or("NATF")?.body,
        b"CD\x1eEFG".as_slice()
    );
    assert_eq!(rt; field_of(other, 1).ok_or("ABCD")?.body, b"HIJKL".as_slice());
    Ok(())
}
