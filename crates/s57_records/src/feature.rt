// What a feature record is: FRID and FOID.
ghost use Rattle.std.specs.Prelude.{◌≡◌, ◌++◌, ◌∷◌, [], option_map};
ghost use Rattle.std.specs.Result.{result_ok};
ghost use Rattle.s57_records.specs.Formats.{values_in, field_of, appended};
ghost use Rattle.s57_records.specs.Fields.{frid, frid_values, foid, foid_values};

use crate::cursor::{Malformed, end, u8_at, u16_at, u32_at};
use std::alloc::AllocError;

/// The identifier of a feature record (FRID; S-57 Edition 3.1, Part 3, 7.6.1).
#[derive(Clone, Copy, Debug, PartialEq, Eq)]
pub struct Frid {
    pub rcnm: u8,
    pub rcid: u32,
    pub prim: u8,
    pub grup: u8,
    pub objl: u16,
    pub rver: u16,
    pub ruin: u8,
}

/// The identifier of a feature among those of all agencies (FOID; S-57 Edition 3.1, Part 3, 7.6.2).
#[derive(Clone, Copy, Debug, PartialEq, Eq)]
pub struct Foid {
    pub agen: u16,
    pub fidn: u32,
    pub fids: u16,
}

fn frid_in(body: &[u8]) -> Result<Frid, Malformed>
    ensures { option_map frid_values (result_ok result) ≡ values_in frid body.now }
{
    let (rcnm, rest) = u8_at(body)?;
    let (rcid, rest) = u32_at(rest)?;
    let (prim, rest) = u8_at(rest)?;
    let (grup, rest) = u8_at(rest)?;
    let (objl, rest) = u16_at(rest)?;
    let (rver, rest) = u16_at(rest)?;
    let (ruin, rest) = u8_at(rest)?;
    end(rest)?;
    Ok(Frid {
        rcnm,
        rcid,
        prim,
        grup,
        objl,
        rver,
        ruin,
    })
}

/// The value of a body of FRID; None exactly where the body isn't of its format to its end.
pub fn read_frid(body: &[u8]) -> Option<Frid>
    ensures { option_map frid_values result ≡ values_in frid body.now }
{
    frid_in(body).ok()
}

/// Appends the field FRID, 13 bytes; a refusal leaves `out` as it was.
pub fn write_frid(out: &mut Vec<u8>, value: &Frid) -> Result<(), AllocError>
    ensures { out.new.items ≡ appended result out.old.items (field_of frid (frid_values value.now) ++ 30 ∷ []) }
{
    let id = value.rcid.to_le_bytes();
    let object = value.objl.to_le_bytes();
    let version = value.rver.to_le_bytes();
    out.extend_from_slice(&[
        value.rcnm, id[0], id[1], id[2], id[3], value.prim, value.grup, object[0], object[1],
        version[0], version[1], value.ruin, 0x1e,
    ])
}

fn foid_in(body: &[u8]) -> Result<Foid, Malformed>
    ensures { option_map foid_values (result_ok result) ≡ values_in foid body.now }
{
    let (agen, rest) = u16_at(body)?;
    let (fidn, rest) = u32_at(rest)?;
    let (fids, rest) = u16_at(rest)?;
    end(rest)?;
    Ok(Foid { agen, fidn, fids })
}

/// The value of a body of FOID; None exactly where the body isn't of its format to its end.
pub fn read_foid(body: &[u8]) -> Option<Foid>
    ensures { option_map foid_values result ≡ values_in foid body.now }
{
    foid_in(body).ok()
}

/// Appends the field FOID, 9 bytes; a refusal leaves `out` as it was.
pub fn write_foid(out: &mut Vec<u8>, value: &Foid) -> Result<(), AllocError>
    ensures { out.new.items ≡ appended result out.old.items (field_of foid (foid_values value.now) ++ 30 ∷ []) }
{
    let agency = value.agen.to_le_bytes();
    let number = value.fidn.to_le_bytes();
    let part = value.fids.to_le_bytes();
    out.extend_from_slice(&[
        agency[0], agency[1], number[0], number[1], number[2], number[3], part[0], part[1], 0x1e,
    ])
}
