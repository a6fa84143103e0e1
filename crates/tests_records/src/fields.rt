// Fields of S-57's records, read and written.
use s57_records::{
    Dsid, Dspm, Dssi, Foid, Frid, Fspc, Fspt, Sgcc, close, push_fspt, push_sg3d, write_dsid,
    write_dspm, write_dssi, write_foid, write_frid, write_fspc, write_sgcc,
};
use std::alloc::{AllocError, Global};
use std::test::Fail;

// What the writers below append.
fn expected() -> [u8; 175] {
    *b"\x0a\x01\0\0\0\x01\x05XX5ROW02.000\x1f1\x1f0\x1f202401312024\x1f13103.1\x01\x1f2.0\x1f\x01\x07\0\x1f\x1e\
\x02\0\0\x01\0\0\0\0\0\0\0\x04\x03\x02\x01\0\0\0\0\x01\0\0\0\x01\0\0\0\xff\xff\xff\xff\0\0\0\0\x1e\
\x14\x01\0\0\0\x02\x03\x17\xe0\x2e\0\0\x01\x01\x01\x01\x80\x96\x98\0\x0a\0\0\0ab\x1f\x1e\
\x64\x02\x01\0\0\x03\x01\x2e\x01\x01\0\x01\x1e\
\x07\0\x02\0\0\0\x01\0\x1e\
\x02\x01\0\x01\x01\x1e\x01\x05\0\x01\0\x1e\
\x82\x01\0\0\0\x01\x03\xff\x1e\
\xff\xff\xff\xff\0\0\0\x80\x65\0\0\0\x1e"
}

fn put_data_set(out: &mut Vec<u8>) -> Result<(), AllocError> {
    let value = Dsid {
        rcnm: 10,
        rcid: 1,
        expp: 1,
        intu: 5,
        dsnm: b"XX5ROW02.000",
        edtn: b"1",
        updn: b"0",
        uadt: *b"20240131",
        isdt: *b"2024\x1f131",
        sted: *b"03.1",
        prsp: 1,
        psdn: b"",
        pred: b"2.0",
        prof: 1,
        agen: 7,
        comt: b"",
    };
    write_dsid(out, &value)
}

fn counts() -> Dssi {
    Dssi {
        dstr: 2,
        aall: 0,
        nall: 0,
        nomr: 1,
        nocr: 0,
        nogr: 0x01020304,
        nolr: 0,
        noin: 1,
        nocn: 1,
        noed: u32::MAX,
        nofa: 0,
    }
}

fn put_parameters(out: &mut Vec<u8>) -> Result<(), AllocError> {
    let value = Dspm {
        rcnm: 20,
        rcid: 1,
        hdat: 2,
        vdat: 3,
        sdat: 23,
        cscl: 12000,
        duni: 1,
        huni: 1,
        puni: 1,
        coun: 1,
        comf: 10_000_000,
        somf: 10,
        comt: b"ab",
    };
    write_dspm(out, &value)
}

fn feature() -> Frid {
    Frid {
        rcnm: 100,
        rcid: 258,
        prim: 3,
        grup: 1,
        objl: 302,
        rver: 1,
        ruin: 1,
    }
}

fn name() -> Foid {
    Foid {
        agen: 7,
        fidn: 2,
        fids: 1,
    }
}

fn pointers_change() -> Fspc {
    Fspc {
        fsui: 2,
        fsix: 1,
        nspt: 257,
    }
}

fn points_change() -> Sgcc {
    Sgcc {
        ccui: 1,
        ccix: 5,
        ccnc: 1,
    }
}

fn pointer() -> Fspt {
    Fspt {
        rcnm: 130,
        rcid: 1,
        ornt: 1,
        usag: 3,
        mask: 255,
    }
}

fn written(alloc: Global) -> Result<Vec<u8>, AllocError> {
    let mut out = Vec::new(alloc);
    put_data_set(&mut out)?;
    write_dssi(&mut out, &counts())?;
    put_parameters(&mut out)?;
    write_frid(&mut out, &feature())?;
    write_foid(&mut out, &name())?;
    write_fspc(&mut out, &pointers_change())?;
    write_sgcc(&mut out, &points_change())?;
    push_fspt(&mut out, &pointer())?;
    close(&mut out)?;
    push_sg3d(&mut out, -1, i32::MIN, 101)?;
    close(&mut out)?;
    Ok(out)
}

#[test]
fn fields_are_written_byte_for_byte(rt: HostRuntime) -> Result<(), Fail> {
    let out = written(rt.alloc())?;
    assert_eq!(rt; out.as_slice(), expected().as_slice());
    Ok(())
}
