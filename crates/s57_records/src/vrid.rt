// VRID: what a vector record is.
ghost use Rattle.std.specs.Prelude.{◌≡◌, ◌++◌, ◌∷◌, [], option_map};
ghost use Rattle.std.specs.Result.{result_ok};
ghost use Rattle.s57_records.specs.Formats.{values_in, field_of, appended};
ghost use Rattle.s57_records.specs.Fields.{vrid, vrid_values};

use crate::cursor::{Malformed, end, u8_at, u16_at, u32_at};
use std::alloc::AllocError;

/// The identifier of a vector record (VRID; S-57 Edition 3.1, Part 3, 7.7.1.1).
#[derive(Clone, Copy, Debug, PartialEq, Eq)]
pub struct Vrid {
    pub rcnm: u8,
    pub rcid: u32,
    pub rver: u16,
    pub ruin: u8,
}

fn vrid_in(body: &[u8]) -> Result<Vrid, Malformed>
    ensures { option_map vrid_values (result_ok result) ≡ values_in vrid body.now }
{
    let (rcnm, rest) = u8_at(body)?;
    let (rcid, rest) = u32_at(rest)?;
    let (rver, rest) = u16_at(rest)?;
    let (ruin, rest) = u8_at(rest)?;
    end(rest)?;
    Ok(Vrid {
        rcnm,
        rcid,
        rver,
        ruin,
    })
}

/// The value of a body of VRID; None exactly where the body isn't of its format to its end.
pub fn read_vrid(body: &[u8]) -> Option<Vrid>
    ensures { option_map vrid_values result ≡ values_in vrid body.now }
{
    vrid_in(body).ok()
}

/// Appends the field VRID, 9 bytes; a refusal leaves `out` as it was.
pub fn write_vrid(out: &mut Vec<u8>, value: &Vrid) -> Result<(), AllocError>
    ensures { out.new.items ≡ appended result out.old.items (field_of vrid (vrid_values value.now) ++ 30 ∷ []) }
{
    let id = value.rcid.to_le_bytes();
    let version = value.rver.to_le_bytes();
    out.extend_from_slice(&[
        value.rcnm, id[0], id[1], id[2], id[3], version[0], version[1], value.ruin, 0x1e,
    ])
}
