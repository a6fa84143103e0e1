// How an update changes pointers and points: FSPC and SGCC.
ghost use Rattle.std.specs.Prelude.{◌≡◌, ◌++◌, ◌∷◌, [], option_map};
ghost use Rattle.std.specs.Result.{result_ok};
ghost use Rattle.s57_records.specs.Formats.{values_in, field_of, appended};
ghost use Rattle.s57_records.specs.Fields.{fspc, fspc_values, sgcc, sgcc_values};

use crate::cursor::{Malformed, end, u8_at, u16_at};
use std::alloc::AllocError;

/// How a feature's pointers change (FSPC; S-57 Edition 3.1, Part 3, 7.6.7): the instruction, the place from 1 on, and the
/// number of pointers.
#[derive(Clone, Copy, Debug, PartialEq, Eq)]
pub struct Fspc {
    pub fsui: u8,
    pub fsix: u16,
    pub nspt: u16,
}

/// How a vector record's points change (SGCC; S-57 Edition 3.1, Part 3, 7.7.1.5): the instruction, the place from 1 on,
/// and the number of points.
#[derive(Clone, Copy, Debug, PartialEq, Eq)]
pub struct Sgcc {
    pub ccui: u8,
    pub ccix: u16,
    pub ccnc: u16,
}

fn fspc_in(body: &[u8]) -> Result<Fspc, Malformed>
    ensures { option_map fspc_values (result_ok result) ≡ values_in fspc body.now }
{
    let (fsui, rest) = u8_at(body)?;
    let (fsix, rest) = u16_at(rest)?;
    let (nspt, rest) = u16_at(rest)?;
    end(rest)?;
    Ok(Fspc { fsui, fsix, nspt })
}

/// The value of a body of FSPC; None exactly where the body hasn't 5 bytes.
pub fn read_fspc(body: &[u8]) -> Option<Fspc>
    ensures { option_map fspc_values result ≡ values_in fspc body.now }
{
    fspc_in(body).ok()
}

/// Appends the field FSPC, 6 bytes; a refusal leaves `out` as it was.
pub fn write_fspc(out: &mut Vec<u8>, value: &Fspc) -> Result<(), AllocError>
    ensures { out.new.items ≡ appended result out.old.items (field_of fspc (fspc_values value.now) ++ 30 ∷ []) }
{
    let place = value.fsix.to_le_bytes();
    let count = value.nspt.to_le_bytes();
    out.extend_from_slice(&[value.fsui, place[0], place[1], count[0], count[1], 0x1e])
}

fn sgcc_in(body: &[u8]) -> Result<Sgcc, Malformed>
    ensures { option_map sgcc_values (result_ok result) ≡ values_in sgcc body.now }
{
    let (ccui, rest) = u8_at(body)?;
    let (ccix, rest) = u16_at(rest)?;
    let (ccnc, rest) = u16_at(rest)?;
    end(rest)?;
    Ok(Sgcc { ccui, ccix, ccnc })
}

/// The value of a body of SGCC; None exactly where the body hasn't 5 bytes.
pub fn read_sgcc(body: &[u8]) -> Option<Sgcc>
    ensures { option_map sgcc_values result ≡ values_in sgcc body.now }
{
    sgcc_in(body).ok()
}

/// Appends the field SGCC, 6 bytes; a refusal leaves `out` as it was.
pub fn write_sgcc(out: &mut Vec<u8>, value: &Sgcc) -> Result<(), AllocError>
    ensures { out.new.items ≡ appended result out.old.items (field_of sgcc (sgcc_values value.now) ++ 30 ∷ []) }
{
    let place = value.ccix.to_le_bytes();
    let count = value.ccnc.to_le_bytes();
    out.extend_from_slice(&[value.ccui, place[0], place[1], count[0], count[1], 0x1e])
}
