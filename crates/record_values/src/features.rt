// Feature records.
ghost use Rattle.std.specs.Prelude.{◌≡◌, IfOk};
ghost use Rattle.record_values.specs.Features.{name_in, feature_with, feature_of};
ghost use Rattle.record_values.specs.Groups.{pointers};
ghost use Rattle.record_values.specs.Views.{views};

use crate::attributes::attributes_of;
use crate::fields::are_whole;
use crate::groups::list_groups;
use chart_model::{Attribute, Feature, Items, Pointer};
use iso8211_codec::Field;
use s57_codes::tag::FSPT;
use s57_records::{Foid, Frid, read_foid};
use std::alloc::{AllocError, Global};

/// FOID, the name of a feature among those of all producers; None where the body isn't of its format.
pub fn name_in(body: &[u8]) -> Option<Foid>
    ensures { result ≡ name_in body.now }
{
    read_foid(body)
}

/// The pointers of a feature record, of its fields FSPT.
pub fn pointers_of(alloc: Global, fields: &[Field<'_>]) -> Result<Items<Pointer>, AllocError>
    ensures { IfOk result (λ items. items ≡ pointers (views fields.now)) }
{
    let mut list = Vec::new(alloc);
    list_groups(fields, FSPT, 8, &mut list)?;
    Ok(Items::over(list))
}

fn feature_with(
    frid: Frid,
    foid: Foid,
    attributes: Vec<Attribute>,
    pointers: Items<Pointer>,
) -> Feature
    ensures { result ≡ feature_with frid foid attributes.items pointers }
{
    Feature {
        rcid: frid.rcid,
        rver: frid.rver,
        prim: frid.prim,
        grup: frid.grup,
        objl: frid.objl,
        agen: foid.agen,
        fidn: foid.fidn,
        fids: foid.fids,
        attributes: Items::over(attributes),
        pointers,
    }
}

/// The feature that a record with this identifier and this name stands for; None where ATTF or FSPT isn't of its format, or
/// the feature doesn't point at what its PRIM is made of.
pub fn feature_of(
    alloc: Global,
    frid: Frid,
    foid: Foid,
    fields: &[Field<'_>],
) -> Result<Option<Feature>, AllocError>
    ensures { IfOk result (λ feature. feature ≡ feature_of frid foid (views fields.now)) }
{
    let Some(attributes) = attributes_of(alloc, fields)? else {
        return Ok(None);
    };
    if !are_whole(fields, FSPT, 8) {
        return Ok(None);
    }
    let pointers = pointers_of(alloc, fields)?;
    let feature = feature_with(frid, foid, attributes, pointers);
    if feature.is_made() {
        Ok(Some(feature))
    } else {
        Ok(None)
    }
}
