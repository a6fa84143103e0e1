// One record of an update, of whatever kind.
ghost use Rattle.std.specs.Prelude.{◌≡◌, IfOk, IfSome};
ghost use Rattle.record_values.specs.Views.{views};
ghost use Rattle.update_reader.specs.Faults.{Gives};
ghost use Rattle.update_reader.specs.Reading.{data_set, vector, feature, change_in};
ghost use Rattle.update_reader.specs.Sound.{IsSoundIssue};
ghost use Rattle.update_reader.specs.Values.{issue_in, is_plain, is_change};

use crate::change::{Change, Issue};
use crate::fault::UpdateFault;
use crate::feature::feature_change;
use crate::kinds::{are_single, has_field, inserts};
use crate::vector::vector_change;
use iso8211_codec::Field;
use record_values::{VectorGroups, identity_in, is_known, leads, only, text_of};
use s57_codes::code::REVISION;
use s57_codes::tag::{DSID, FOID, FRID, FSPC, FSPT, SGCC, VRID, VRPC, VRPT};
use std::alloc::{AllocError, Global};

/// Whether the record says nothing of how items change, as one that is inserted has to.
pub(crate) fn is_plain(fields: &[Field<'_>]) -> bool
    ensures { result ≡ is_plain (views fields.now) }
{
    !has_field(fields, FSPC) && !has_field(fields, SGCC)
}

/// Whether the record gives no ends of an edge, and no pointers without saying how these change, as one that is modified has
/// to.
pub(crate) fn is_change(fields: &[Field<'_>]) -> bool
    ensures { result ≡ is_change (views fields.now) }
{
    !has_field(fields, VRPT)
        && !has_field(fields, VRPC)
        && (has_field(fields, FSPC) || !has_field(fields, FSPT))
}

/// Which update a body of DSID says that it is; None where it is no revision, or not of its format.
fn issue_in(alloc: Global, body: &[u8]) -> Result<Option<Issue>, AllocError>
    ensures same { IfOk result (λ issue. issue ≡ issue_in body.now) }
    ensures texts { IfOk result (λ issue. IfSome issue IsSoundIssue) }
{
    let Some(dsid) = identity_in(body) else {
        return Ok(None);
    };
    if dsid.expp != REVISION {
        return Ok(None);
    }
    Ok(Some(Issue {
        edtn: text_of(alloc, dsid.edtn)?,
        updn: text_of(alloc, dsid.updn)?,
        uadt: dsid.uadt,
        isdt: dsid.isdt,
    }))
}

/// What the data set record says.
#[tactic(auto, unfolding(crate::specs::Reading::data_set))]
pub(crate) fn data_set(alloc: Global, at: usize, fields: &[Field<'_>]) -> Result<Issue, UpdateFault>
    ensures gives { Gives (λ i. i) result (data_set at (views fields.now)) }
    ensures texts { IfOk result IsSoundIssue }
{
    if !leads(fields, DSID) || !are_single(fields) {
        return Err(UpdateFault::Kind(at));
    }
    let body = only(fields, DSID).ok_or(UpdateFault::Kind(at))?;
    issue_in(alloc, body)?.ok_or(UpdateFault::Value(at))
}

/// The change of a vector record.
#[tactic(auto, unfolding(crate::specs::Reading::vector))]
fn vector(
    alloc: Global,
    at: usize,
    fields: &[Field<'_>],
    groups: &mut VectorGroups,
) -> Result<Change, UpdateFault>
    ensures { Gives (λ c. c) result (vector at (views fields.now)) }
{
    if !are_single(fields) {
        return Err(UpdateFault::Kind(at));
    }
    let body = only(fields, VRID).ok_or(UpdateFault::Kind(at))?;
    if !is_known(body) {
        return Err(UpdateFault::Kind(at));
    }
    vector_change(alloc, body, fields, groups)?.ok_or(UpdateFault::Value(at))
}

/// The change of a feature record.
#[tactic(auto, unfolding(crate::specs::Reading::feature))]
fn feature(alloc: Global, at: usize, fields: &[Field<'_>]) -> Result<Change, UpdateFault>
    ensures { Gives (λ c. c) result (feature at (views fields.now)) }
{
    if !are_single(fields) {
        return Err(UpdateFault::Kind(at));
    }
    let body = only(fields, FRID).ok_or(UpdateFault::Kind(at))?;
    if inserts(body) && !has_field(fields, FOID) {
        return Err(UpdateFault::Kind(at));
    }
    feature_change(alloc, body, fields)?.ok_or(UpdateFault::Value(at))
}

/// The change that a record at this offset with these fields says.
#[tactic(auto, unfolding(crate::specs::Reading::change_in))]
pub(crate) fn change_in(
    alloc: Global,
    at: usize,
    fields: &[Field<'_>],
    groups: &mut VectorGroups,
) -> Result<Change, UpdateFault>
    ensures { Gives (λ c. c) result (change_in at (views fields.now)) }
{
    if leads(fields, VRID) {
        vector(alloc, at, fields, groups)
    } else if leads(fields, FRID) {
        feature(alloc, at, fields)
    } else {
        Err(UpdateFault::Kind(at))
    }
}
