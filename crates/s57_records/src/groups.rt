// Fields of groups that repeat: pointers and points.
ghost use Rattle.std.specs.Prelude.{◌≡◌, ◌∷◌, [], option_map};
ghost use Rattle.s57_records.specs.Formats.{Z, signed, values_of_group, field_of, appended};
ghost use Rattle.s57_records.specs.Fields.{vrpt, vrpt_values, fspt, fspt_values, sg2d, sg2d_values, sg3d, sg3d_values};

use crate::pointer::{Fspt, Vrpt};
use std::alloc::AllocError;

/// Pointer `k`, from 0, of a body of VRPT; None exactly where no `k + 1` whole pointers of 9 bytes are there.
pub fn vrpt(body: &[u8], k: usize) -> Option<Vrpt>
    ensures { option_map vrpt_values result ≡ values_of_group vrpt k body.now }
{
    if body.len() / 9 <= k {
        return None;
    }
    let b = &body[k * 9..k * 9 + 9];
    Some(Vrpt {
        rcnm: b[0],
        rcid: u32::from_le_bytes([b[1], b[2], b[3], b[4]]),
        ornt: b[5],
        usag: b[6],
        topi: b[7],
        mask: b[8],
    })
}

/// Appends a pointer of VRPT, 9 bytes without a closing 0x1E; a refusal leaves `out` as it was.
pub fn push_vrpt(out: &mut Vec<u8>, value: &Vrpt) -> Result<(), AllocError>
    ensures { out.new.items ≡ appended result out.old.items (field_of vrpt (vrpt_values value.now)) }
{
    let id = value.rcid.to_le_bytes();
    out.extend_from_slice(&[
        value.rcnm, id[0], id[1], id[2], id[3], value.ornt, value.usag, value.topi, value.mask,
    ])
}

/// Pointer `k`, from 0, of a body of FSPT; None exactly where no `k + 1` whole pointers of 8 bytes are there.
pub fn fspt(body: &[u8], k: usize) -> Option<Fspt>
    ensures { option_map fspt_values result ≡ values_of_group fspt k body.now }
{
    if body.len() / 8 <= k {
        return None;
    }
    let b = &body[k * 8..k * 8 + 8];
    Some(Fspt {
        rcnm: b[0],
        rcid: u32::from_le_bytes([b[1], b[2], b[3], b[4]]),
        ornt: b[5],
        usag: b[6],
        mask: b[7],
    })
}

/// Appends a pointer of FSPT, 8 bytes without a closing 0x1E; a refusal leaves `out` as it was.
pub fn push_fspt(out: &mut Vec<u8>, value: &Fspt) -> Result<(), AllocError>
    ensures { out.new.items ≡ appended result out.old.items (field_of fspt (fspt_values value.now)) }
{
    let id = value.rcid.to_le_bytes();
    out.extend_from_slice(&[
        value.rcnm, id[0], id[1], id[2], id[3], value.ornt, value.usag, value.mask,
    ])
}

// The numbers of point k, each as the unsigned number of its four bytes.
fn two_words(body: &[u8], k: usize) -> Option<(u32, u32)>
    ensures { option_map (λ p. Z (signed p.0) ∷ Z (signed p.1) ∷ []) result ≡ values_of_group sg2d k body.now }
{
    if body.len() / 8 <= k {
        return None;
    }
    let b = &body[k * 8..k * 8 + 8];
    Some((
        u32::from_le_bytes([b[0], b[1], b[2], b[3]]),
        u32::from_le_bytes([b[4], b[5], b[6], b[7]]),
    ))
}

/// Point `k`, from 0, of a body of SG2D (S-57 Edition 3.1, Part 3, 7.7.1.6): y and x in ten-millionths of a degree; None
/// exactly where no `k + 1` whole points of 8 bytes are there. Their range isn't tested.
#[tactic(auto, using(crate::proofs::Signed::back), unfolding(crate::specs::Formats::signed))]
pub fn sg2d(body: &[u8], k: usize) -> Option<(i32, i32)>
    ensures { option_map sg2d_values result ≡ values_of_group sg2d k body.now }
{
    match two_words(body, k) {
        Some((y, x)) => Some((y.cast_signed(), x.cast_signed())),
        None => None,
    }
}

/// Appends a point of SG2D, 8 bytes without a closing 0x1E; a refusal leaves `out` as it was.
pub fn push_sg2d(out: &mut Vec<u8>, y: i32, x: i32) -> Result<(), AllocError>
    ensures { out.new.items ≡ appended result out.old.items (field_of sg2d (sg2d_values (y, x))) }
{
    let y = y.to_le_bytes();
    let x = x.to_le_bytes();
    out.extend_from_slice(&[y[0], y[1], y[2], y[3], x[0], x[1], x[2], x[3]])
}

// The numbers of sounding k, each as the unsigned number of its four bytes.
fn three_words(body: &[u8], k: usize) -> Option<(u32, u32, u32)>
    ensures { option_map (λ p. Z (signed p.0) ∷ Z (signed p.1) ∷ Z (signed p.2) ∷ []) result ≡ values_of_group sg3d k body.now }
{
    if body.len() / 12 <= k {
        return None;
    }
    let b = &body[k * 12..k * 12 + 12];
    Some((
        u32::from_le_bytes([b[0], b[1], b[2], b[3]]),
        u32::from_le_bytes([b[4], b[5], b[6], b[7]]),
        u32::from_le_bytes([b[8], b[9], b[10], b[11]]),
    ))
}

/// Sounding `k`, from 0, of a body of SG3D (S-57 Edition 3.1, Part 3, 7.7.1.7): y and x in ten-millionths of a degree,
/// and the depth in decimetres; None exactly where no `k + 1` whole soundings of 12 bytes are there. Their range isn't
/// tested.
#[tactic(auto, using(crate::proofs::Signed::back), unfolding(crate::specs::Formats::signed))]
pub fn sg3d(body: &[u8], k: usize) -> Option<(i32, i32, i32)>
    ensures { option_map sg3d_values result ≡ values_of_group sg3d k body.now }
{
    match three_words(body, k) {
        Some((y, x, v)) => Some((y.cast_signed(), x.cast_signed(), v.cast_signed())),
        None => None,
    }
}

/// Appends a sounding of SG3D, 12 bytes without a closing 0x1E; a refusal leaves `out` as it was.
pub fn push_sg3d(out: &mut Vec<u8>, y: i32, x: i32, v: i32) -> Result<(), AllocError>
    ensures { out.new.items ≡ appended result out.old.items (field_of sg3d (sg3d_values (y, x, v))) }
{
    let y = y.to_le_bytes();
    let x = x.to_le_bytes();
    let v = v.to_le_bytes();
    out.extend_from_slice(&[
        y[0], y[1], y[2], y[3], x[0], x[1], x[2], x[3], v[0], v[1], v[2], v[3],
    ])
}
