// DSSI: what a data set is made of.
ghost use Rattle.std.specs.Prelude.{◌≡◌, ◌++◌, ◌∷◌, [], option_map};
ghost use Rattle.std.specs.Result.{result_ok};
ghost use Rattle.s57_records.specs.Formats.{values_in, field_of, appended};
ghost use Rattle.s57_records.specs.Fields.{dssi, dssi_values};

use crate::cursor::{Malformed, end, u8_at, u32_at};
use std::alloc::AllocError;

/// The structure of a data set and the numbers of its records (DSSI; S-57 Edition 3.1, Part 3, 7.3.1.2).
#[derive(Clone, Copy, Debug, PartialEq, Eq)]
pub struct Dssi {
    pub dstr: u8,
    pub aall: u8,
    pub nall: u8,
    pub nomr: u32,
    pub nocr: u32,
    pub nogr: u32,
    pub nolr: u32,
    pub noin: u32,
    pub nocn: u32,
    pub noed: u32,
    pub nofa: u32,
}

fn dssi_in(body: &[u8]) -> Result<Dssi, Malformed>
    ensures { option_map dssi_values (result_ok result) ≡ values_in dssi body.now }
{
    let (dstr, rest) = u8_at(body)?;
    let (aall, rest) = u8_at(rest)?;
    let (nall, rest) = u8_at(rest)?;
    let (nomr, rest) = u32_at(rest)?;
    let (nocr, rest) = u32_at(rest)?;
    let (nogr, rest) = u32_at(rest)?;
    let (nolr, rest) = u32_at(rest)?;
    let (noin, rest) = u32_at(rest)?;
    let (nocn, rest) = u32_at(rest)?;
    let (noed, rest) = u32_at(rest)?;
    let (nofa, rest) = u32_at(rest)?;
    end(rest)?;
    Ok(Dssi {
        dstr,
        aall,
        nall,
        nomr,
        nocr,
        nogr,
        nolr,
        noin,
        nocn,
        noed,
        nofa,
    })
}

/// The value of a body of DSSI; None exactly where the body isn't of its format to its end.
pub fn read_dssi(body: &[u8]) -> Option<Dssi>
    ensures { option_map dssi_values result ≡ values_in dssi body.now }
{
    dssi_in(body).ok()
}

/// Appends the field DSSI, 36 bytes; a refusal leaves `out` as it was.
pub fn write_dssi(out: &mut Vec<u8>, value: &Dssi) -> Result<(), AllocError>
    ensures { out.new.items ≡ appended result out.old.items (field_of dssi (dssi_values value.now) ++ 30 ∷ []) }
{
    let m = value.nomr.to_le_bytes();
    let c = value.nocr.to_le_bytes();
    let g = value.nogr.to_le_bytes();
    let l = value.nolr.to_le_bytes();
    let i = value.noin.to_le_bytes();
    let n = value.nocn.to_le_bytes();
    let e = value.noed.to_le_bytes();
    let f = value.nofa.to_le_bytes();
    out.extend_from_slice(&[
        value.dstr, value.aall, value.nall, m[0], m[1], m[2], m[3], c[0], c[1], c[2], c[3], g[0],
        g[1], g[2], g[3], l[0], l[1], l[2], l[3], i[0], i[1], i[2], i[3], n[0], n[1], n[2], n[3],
        e[0], e[1], e[2], e[3], f[0], f[1], f[2], f[3], 0x1e,
    ])
}
