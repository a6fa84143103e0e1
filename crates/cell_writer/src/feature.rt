// The records of features.
ghost use Rattle.std.specs.Prelude.{◌≡◌, ◌++◌, ◌+◌, ◌∷◌, ◌<◌, ◌^◌, [], All, IsTrue, OnOk, length};
ghost use Rattle.std.specs.List.{flat_map, list_all};
ghost use Rattle.cell_writer.specs.Drafts.{Adds};
ghost use Rattle.cell_writer.specs.Layout.{feature_parts, field, foid_of, frid_of, is_short, numbered};
ghost use Rattle.cell_writer.specs.Sized.{FeatureFits};
ghost use Rattle.chart_model.specs.Whole.{IsText};
ghost use Rattle.chart_model.specs.declared.records.Attribute.{Attribute};
ghost use Rattle.chart_model.specs.declared.records.Feature.{Feature};
ghost use Rattle.iso8211_codec.specs.Layout.{record_of};
ghost use Rattle.iso8211_codec.specs.Room.{KeepsRoom};
ghost use Rattle.s57_codes.specs.Catalogue.{tag_foid, tag_frid};
ghost use Rattle.s57_records.specs.Fields.{foid, foid_values, frid, frid_values};
ghost use Rattle.s57_records.specs.Formats.{AllFit, field_of};

use crate::draft::Draft;
use crate::fields::{add_attributes, add_pointers};
use chart_model::Feature;
use s57_codes::code::{FEATURE, INSERT};
use s57_codes::tag;
use s57_records::{Foid, Frid, write_foid, write_frid};
use std::alloc::AllocError;

fn put_frid(bodies: &mut Vec<u8>, value: Frid) -> Result<(), AllocError>
    ensures items { OnOk result (bodies.new.items ≡ bodies.old.items ++ (field_of frid (frid_values value) ++ 30 ∷ [])) }
    ensures fits { OnOk result (AllFit frid (frid_values value)) }
{
    write_frid(bodies, &value)
}

/// Adds FRID, the identifier of a feature that is inserted.
fn add_frid(draft: &mut Draft, feature: &Feature) -> Result<(), AllocError>
    ensures adds { OnOk result (Adds (field tag_frid frid (frid_of feature.now) ∷ []) draft.old draft.new) }
    ensures fits { OnOk result (AllFit frid (frid_of feature.now)) }
{
    let from = draft.bodies.len();
    let value = Frid {
        rcnm: FEATURE,
        rcid: feature.rcid,
        prim: feature.prim,
        grup: feature.grup,
        objl: feature.objl,
        rver: feature.rver,
        ruin: INSERT,
    };
    put_frid(&mut draft.bodies, value)?;
    draft.end(tag::FRID, from)
}

fn put_foid(bodies: &mut Vec<u8>, value: Foid) -> Result<(), AllocError>
    ensures items { OnOk result (bodies.new.items ≡ bodies.old.items ++ (field_of foid (foid_values value) ++ 30 ∷ [])) }
    ensures fits { OnOk result (AllFit foid (foid_values value)) }
{
    write_foid(bodies, &value)
}

/// Adds FOID, the feature's name among those of all agencies.
fn add_foid(draft: &mut Draft, feature: &Feature) -> Result<(), AllocError>
    ensures adds { OnOk result (Adds (field tag_foid foid (foid_of feature.now) ∷ []) draft.old draft.new) }
    ensures fits { OnOk result (AllFit foid (foid_of feature.now)) }
{
    let from = draft.bodies.len();
    let value = Foid {
        agen: feature.agen,
        fidn: feature.fidn,
        fids: feature.fids,
    };
    put_foid(&mut draft.bodies, value)?;
    draft.end(tag::FOID, from)
}

/// Appends the record of a feature.
fn write_feature(
    out: &mut Vec<u8>,
    draft: &mut Draft,
    place: usize,
    feature: &Feature,
) -> Result<(), AllocError>
    requires short { IsTrue (is_short (feature_parts place feature.now)) }
    requires texts { All (λ (a : Attribute). IsText a.text) feature.now.attributes }
    ensures items { OnOk result (out.new.items ≡ out.old.items ++ record_of (feature_parts place feature.now)) }
    ensures room { OnOk result (KeepsRoom out.old out.new) }
    ensures fits { OnOk result (FeatureFits feature.now) }
{
    draft.begin(place)?;
    add_frid(draft, feature)?;
    add_foid(draft, feature)?;
    add_attributes(draft, feature.attributes.as_slice())?;
    add_pointers(draft, feature.pointers.as_slice())?;
    draft.write(out)
}

/// Appends the records of features, the first of which has this place.
pub(crate) fn write_features(
    out: &mut Vec<u8>,
    draft: &mut Draft,
    first: usize,
    features: &[Feature],
) -> Result<(), AllocError>
    requires short { IsTrue (list_all is_short (numbered feature_parts first features.now)) }
    requires texts { All (λ (f : Feature). All (λ (a : Attribute). IsText a.text) f.attributes) features.now }
    requires few { first + length features.now < 2 ^ 64 }
    ensures items { OnOk result (out.new.items ≡ out.old.items ++ flat_map record_of (numbered feature_parts first features.now)) }
    ensures room { OnOk result (KeepsRoom out.old out.new) }
    ensures fits { OnOk result (All FeatureFits features.now) }
{
    for (index, feature) in features.iter().enumerate() {
        write_feature(out, draft, first + index, feature)?;
    }
    Ok(())
}
