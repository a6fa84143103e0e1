// DSPM: the units and datums of a data set.
ghost use Rattle.std.specs.Prelude.{◌≡◌, ◌+◌, ◌≤◌, ◌++◌, ◌∷◌, [], IsTrue, option_map, vec_len, vec_capacity};
ghost use Rattle.std.specs.Result.{result_ok};
ghost use Rattle.s57_records.specs.Formats.{values_in, field_of, appended, is_text};
ghost use Rattle.s57_records.specs.Fields.{dspm, dspm_values, numbers, number_values};

use crate::cursor::{Malformed, end, text_at, u8_at, u32_at};
use crate::put::put_text;
use iso8211_codec::put;
use std::alloc::AllocError;

/// The units, datums and factors of a data set (DSPM; S-57 Edition 3.1, Part 3, 7.3.2.1). Coordinates are whole numbers of
/// one part in `comf` of a degree, depths of one part in `somf` of a metre.
#[derive(Clone, Copy, Debug)]
pub struct Dspm<'a> {
    pub rcnm: u8,
    pub rcid: u32,
    pub hdat: u8,
    pub vdat: u8,
    pub sdat: u8,
    pub cscl: u32,
    pub duni: u8,
    pub huni: u8,
    pub puni: u8,
    pub coun: u8,
    pub comf: u32,
    pub somf: u32,
    pub comt: &'a [u8],
}

fn dspm_in(body: &[u8]) -> Result<Dspm<'_>, Malformed>
    ensures { option_map dspm_values (result_ok result) ≡ values_in dspm body.now }
{
    let (rcnm, rest) = u8_at(body)?;
    let (rcid, rest) = u32_at(rest)?;
    let (hdat, rest) = u8_at(rest)?;
    let (vdat, rest) = u8_at(rest)?;
    let (sdat, rest) = u8_at(rest)?;
    let (cscl, rest) = u32_at(rest)?;
    let (duni, rest) = u8_at(rest)?;
    let (huni, rest) = u8_at(rest)?;
    let (puni, rest) = u8_at(rest)?;
    let (coun, rest) = u8_at(rest)?;
    let (comf, rest) = u32_at(rest)?;
    let (somf, rest) = u32_at(rest)?;
    let (comt, rest) = text_at(rest)?;
    end(rest)?;
    Ok(Dspm {
        rcnm,
        rcid,
        hdat,
        vdat,
        sdat,
        cscl,
        duni,
        huni,
        puni,
        coun,
        comf,
        somf,
        comt,
    })
}

/// The value of a body of DSPM; None exactly where the body isn't of its format to its end.
pub fn read_dspm(body: &[u8]) -> Option<Dspm<'_>>
    ensures { option_map dspm_values result ≡ values_in dspm body.now }
{
    dspm_in(body).ok()
}

// Appends the subfields before the text.
fn put_numbers(out: &mut Vec<u8>, value: &Dspm)
    requires { vec_len out.old + 24 ≤ vec_capacity out.old }
    ensures items { out.new.items ≡ out.old.items ++ field_of numbers (number_values value.now) }
    ensures len { vec_len out.new ≡ vec_len out.old + 24 }
    ensures capacity { vec_capacity out.old ≤ vec_capacity out.new }
{
    let id = value.rcid.to_le_bytes();
    let scale = value.cscl.to_le_bytes();
    let c = value.comf.to_le_bytes();
    let s = value.somf.to_le_bytes();
    put(
        out,
        &[
            value.rcnm, id[0], id[1], id[2], id[3], value.hdat, value.vdat, value.sdat, scale[0],
            scale[1], scale[2], scale[3], value.duni, value.huni, value.puni, value.coun, c[0],
            c[1], c[2], c[3], s[0], s[1], s[2], s[3],
        ],
    );
}

/// Appends the field DSPM, 26 bytes and those of the text; a refusal leaves `out` as it was.
pub fn write_dspm(out: &mut Vec<u8>, value: &Dspm) -> Result<(), AllocError>
    requires { IsTrue (is_text value.now.comt.now) }
    ensures { out.new.items ≡ appended result out.old.items (field_of dspm (dspm_values value.now) ++ 30 ∷ []) }
{
    // 24 bytes of numbers, the 0x1F after the text and the 0x1E after the field
    out.reserve(value.comt.len() + 26)?;
    put_numbers(out, value);
    put_text(out, value.comt);
    put(out, &[0x1e]);
    Ok(())
}
