// DSID: what the data set is.
ghost use Rattle.std.specs.Prelude.{◌≡◌, ◌+◌, ◌-◌, ◌^◌, ◌≤◌, ◌++◌, ◌∷◌, [], IsTrue, length, min, option_map, vec_len, vec_capacity};
ghost use Rattle.std.specs.List.{list_all};
ghost use Rattle.std.specs.Result.{result_ok};
ghost use Rattle.s57_records.specs.Formats.{values_in, field_of, appended, is_text};
ghost use Rattle.s57_records.specs.Fields.{dsid, dsid_values, dsid_texts, data_set, data_set_values, product, product_values, product_part};

use crate::cursor::{Malformed, array_at, end, text_at, u8_at, u16_at, u32_at};
use crate::put::put_text;
use iso8211_codec::put;
use std::alloc::AllocError;

/// What a data set is, and who issued it when (DSID; S-57 Edition 3.1, Part 3, 7.3.1.1). `uadt` and `isdt` are dates of
/// eight digits.
#[derive(Clone, Copy, Debug)]
pub struct Dsid<'a> {
    pub rcnm: u8,
    pub rcid: u32,
    pub expp: u8,
    pub intu: u8,
    pub dsnm: &'a [u8],
    pub edtn: &'a [u8],
    pub updn: &'a [u8],
    pub uadt: [u8; 8],
    pub isdt: [u8; 8],
    pub sted: [u8; 4],
    pub prsp: u8,
    pub psdn: &'a [u8],
    pub pred: &'a [u8],
    pub prof: u8,
    pub agen: u16,
    pub comt: &'a [u8],
}

// The subfields from PRSP on.
#[derive(Clone, Copy)]
struct Product<'a> {
    prsp: u8,
    psdn: &'a [u8],
    pred: &'a [u8],
    prof: u8,
    agen: u16,
    comt: &'a [u8],
}

fn product_in(bytes: &[u8]) -> Result<Product<'_>, Malformed>
    ensures { option_map product_values (result_ok result) ≡ values_in product bytes.now }
{
    let (prsp, rest) = u8_at(bytes)?;
    let (psdn, rest) = text_at(rest)?;
    let (pred, rest) = text_at(rest)?;
    let (prof, rest) = u8_at(rest)?;
    let (agen, rest) = u16_at(rest)?;
    let (comt, rest) = text_at(rest)?;
    end(rest)?;
    Ok(Product {
        prsp,
        psdn,
        pred,
        prof,
        agen,
        comt,
    })
}

fn dsid_in(body: &[u8]) -> Result<Dsid<'_>, Malformed>
    ensures { option_map dsid_values (result_ok result) ≡ values_in dsid body.now }
{
    let (rcnm, rest) = u8_at(body)?;
    let (rcid, rest) = u32_at(rest)?;
    let (expp, rest) = u8_at(rest)?;
    let (intu, rest) = u8_at(rest)?;
    let (dsnm, rest) = text_at(rest)?;
    let (edtn, rest) = text_at(rest)?;
    let (updn, rest) = text_at(rest)?;
    let (uadt, rest) = array_at::<8>(rest)?;
    let (isdt, rest) = array_at::<8>(rest)?;
    let (sted, rest) = array_at::<4>(rest)?;
    let product = product_in(rest)?;
    Ok(Dsid {
        rcnm,
        rcid,
        expp,
        intu,
        dsnm,
        edtn,
        updn,
        uadt,
        isdt,
        sted,
        prsp: product.prsp,
        psdn: product.psdn,
        pred: product.pred,
        prof: product.prof,
        agen: product.agen,
        comt: product.comt,
    })
}

/// The value of a body of DSID; None exactly where the body isn't of its format to its end.
pub fn read_dsid(body: &[u8]) -> Option<Dsid<'_>>
    ensures { option_map dsid_values result ≡ values_in dsid body.now }
{
    dsid_in(body).ok()
}

// The bytes of the field: 7 from RCNM to INTU, 20 of UADT, ISDT and STED, 4 of PRSP, PROF and AGEN, the ends of six texts,
// 0x1E, and the texts. Where their lengths pass every number this is the greatest.
fn room_for(value: &Dsid) -> usize
    ensures { result ≡ min (38 + length value.now.dsnm.now + length value.now.edtn.now + length value.now.updn.now + length value.now.psdn.now + length value.now.pred.now + length value.now.comt.now) (2 ^ 64 - 1) }
{
    let front = (38 + value.dsnm.len())
        .saturating_add(value.edtn.len())
        .saturating_add(value.updn.len());
    front
        .saturating_add(value.psdn.len())
        .saturating_add(value.pred.len())
        .saturating_add(value.comt.len())
}

// Appends the subfields before PRSP.
fn put_set(out: &mut Vec<u8>, value: &Dsid)
    requires { vec_len out.old + 27 + length value.now.dsnm.now + length value.now.edtn.now + length value.now.updn.now + 3 ≤ vec_capacity out.old }
    ensures items { out.new.items ≡ out.old.items ++ field_of data_set (data_set_values value.now) }
    ensures len { vec_len out.new ≡ vec_len out.old + 30 + length value.now.dsnm.now + length value.now.edtn.now + length value.now.updn.now }
    ensures capacity { vec_capacity out.old ≤ vec_capacity out.new }
{
    let id = value.rcid.to_le_bytes();
    put(
        out,
        &[
            value.rcnm, id[0], id[1], id[2], id[3], value.expp, value.intu,
        ],
    );
    put_text(out, value.dsnm);
    put_text(out, value.edtn);
    put_text(out, value.updn);
    let made = value.uadt;
    let issued = value.isdt;
    let edition = value.sted;
    put(out, &made);
    put(out, &issued);
    put(out, &edition);
}

// Appends the subfields from PRSP on.
fn put_product(out: &mut Vec<u8>, value: &Dsid)
    requires { vec_len out.old + 7 + length value.now.psdn.now + length value.now.pred.now + length value.now.comt.now ≤ vec_capacity out.old }
    ensures items { out.new.items ≡ out.old.items ++ field_of product (product_part value.now) }
    ensures len { vec_len out.new ≡ vec_len out.old + 7 + length value.now.psdn.now + length value.now.pred.now + length value.now.comt.now }
    ensures capacity { vec_capacity out.old ≤ vec_capacity out.new }
{
    let agency = value.agen.to_le_bytes();
    put(out, &[value.prsp]);
    put_text(out, value.psdn);
    put_text(out, value.pred);
    put(out, &[value.prof, agency[0], agency[1]]);
    put_text(out, value.comt);
}

/// Appends the field DSID, 38 bytes and those of its six texts; a refusal leaves `out` as it was.
pub fn write_dsid(out: &mut Vec<u8>, value: &Dsid) -> Result<(), AllocError>
    requires { IsTrue (list_all is_text (dsid_texts value.now)) }
    ensures { out.new.items ≡ appended result out.old.items (field_of dsid (dsid_values value.now) ++ 30 ∷ []) }
{
    out.reserve(room_for(value))?;
    put_set(out, value);
    put_product(out, value);
    put(out, &[0x1e]);
    Ok(())
}
