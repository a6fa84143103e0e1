// Changes of features.
ghost use Rattle.std.specs.Prelude.{◌≡◌, IfOk};
ghost use Rattle.record_values.specs.Views.{views};
ghost use Rattle.update_reader.specs.Values.{frid_in, inserted_feature, is_well_named, feature_edit, modified_feature, feature_change};

use crate::change::{Change, Deed, Edit, Splice};
use crate::controls::pointer_splice;
use crate::kinds::has_field;
use crate::record::{is_change, is_plain};
use chart_model::{Attribute, Items};
use iso8211_codec::Field;
use record_values::{are_whole, attributes_of, feature_of, name_in, only, pointers_of};
use s57_codes::code::{DELETE, FEATURE, INSERT, MODIFY};
use s57_codes::tag::{FOID, FSPT};
use s57_records::{Frid, read_frid};
use std::alloc::{AllocError, Global};

/// FRID of the record of a feature.
fn frid_in(body: &[u8]) -> Option<Frid>
    ensures { result ≡ frid_in body.now }
{
    match read_frid(body) {
        Some(frid) if frid.rcnm == FEATURE => Some(frid),
        _ => None,
    }
}

fn inserted_feature(
    alloc: Global,
    frid: Frid,
    fields: &[Field<'_>],
) -> Result<Option<Change>, AllocError>
    ensures { IfOk result (λ change. change ≡ inserted_feature frid (views fields.now)) }
{
    let Some(body) = only(fields, FOID) else {
        return Ok(None);
    };
    let Some(foid) = name_in(body) else {
        return Ok(None);
    };
    let Some(feature) = feature_of(alloc, frid, foid, fields)? else {
        return Ok(None);
    };
    if !is_plain(fields) {
        return Ok(None);
    }
    Ok(Some(Change::OfFeatures(Deed::Insert(feature))))
}

/// Whether FOID of a modified feature, where it has one, is of its format.
fn is_well_named(fields: &[Field<'_>]) -> bool
    ensures { result ≡ is_well_named (views fields.now) }
{
    if !has_field(fields, FOID) {
        return true;
    }
    match only(fields, FOID) {
        Some(body) => name_in(body).is_some(),
        None => false,
    }
}

/// What a modified feature is given.
fn feature_edit(
    alloc: Global,
    splice: Option<Splice>,
    attributes: Vec<Attribute>,
    fields: &[Field<'_>],
) -> Result<Edit, AllocError>
    ensures { IfOk result (λ edit. edit ≡ feature_edit splice attributes.items (views fields.now)) }
{
    let pointers = pointers_of(alloc, fields)?;
    Ok(Edit {
        attributes: Items::over(attributes),
        splice,
        pointers,
        points: Items::over(Vec::new(alloc)),
        soundings: Items::over(Vec::new(alloc)),
    })
}

fn modified_feature(
    alloc: Global,
    frid: Frid,
    fields: &[Field<'_>],
) -> Result<Option<Change>, AllocError>
    ensures { IfOk result (λ change. change ≡ modified_feature frid (views fields.now)) }
{
    let Some(splice) = pointer_splice(fields) else {
        return Ok(None);
    };
    let Some(attributes) = attributes_of(alloc, fields)? else {
        return Ok(None);
    };
    if !is_change(fields) || !is_well_named(fields) || !are_whole(fields, FSPT, 8) {
        return Ok(None);
    }
    let edit = feature_edit(alloc, splice, attributes, fields)?;
    Ok(Some(Change::OfFeatures(Deed::Modify(frid.rcid, frid.rver, edit))))
}

/// The change of a feature record with this body of FRID; None where a value isn't one that an update may have.
#[tactic(auto, unfolding(crate::specs::Values::feature_change))]
pub(crate) fn feature_change(
    alloc: Global,
    body: &[u8],
    fields: &[Field<'_>],
) -> Result<Option<Change>, AllocError>
    ensures { IfOk result (λ change. change ≡ feature_change body.now (views fields.now)) }
{
    let Some(frid) = frid_in(body) else {
        return Ok(None);
    };
    match frid.ruin {
        INSERT => inserted_feature(alloc, frid, fields),
        DELETE => Ok(Some(Change::OfFeatures(Deed::Delete(frid.rcid, frid.rver)))),
        MODIFY => modified_feature(alloc, frid, fields),
        _ => Ok(None),
    }
}
