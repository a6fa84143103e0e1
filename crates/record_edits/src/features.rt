// Modified features.
ghost use Rattle.std.specs.Prelude.{◌≡◌, IfOk, IsTrue, length};
ghost use Rattle.record_edits.specs.Edits.{feature_with_changes, feature_after};
ghost use Rattle.record_edits.specs.Splices.{can_change};
ghost use Rattle.update_reader.specs.Faults.{Gives};

use crate::attributes::attributes_after;
use crate::splices::{can_change, items_after};
use chart_model::{Feature, Items};
use s57_codes::code::FEATURE;
use std::alloc::{AllocError, Global};
use update_reader::{Edit, UpdateFault};

/// A feature with its attributes and pointers changed.
fn feature_with_changes(
    alloc: Global,
    feature: &Feature,
    rver: u16,
    edit: &Edit,
) -> Result<Feature, AllocError>
    requires { IsTrue (can_change edit.now.splice (length feature.now.pointers) (length edit.now.pointers)) }
    ensures { IfOk result (λ f. f ≡ feature_with_changes rver edit.now feature.now) }
{
    let attributes = attributes_after(
        alloc,
        edit.attributes.as_slice(),
        feature.attributes.as_slice(),
    )?;
    let pointers = items_after(
        alloc,
        edit.splice,
        edit.pointers.as_slice(),
        feature.pointers.as_slice(),
    )?;
    Ok(Feature {
        rcid: feature.rcid,
        rver,
        prim: feature.prim,
        grup: feature.grup,
        objl: feature.objl,
        agen: feature.agen,
        fidn: feature.fidn,
        fids: feature.fids,
        attributes: Items::over(attributes),
        pointers: Items::over(pointers),
    })
}

/// A feature after a modification to a version, or the first of `Index` and `Shape` that is due: `Index` where the place, the
/// number or the count of the given pointers isn't one that the feature has; `Shape` where it isn't left with pointers that
/// its PRIM asks for.
pub fn edited_feature(
    alloc: Global,
    feature: &Feature,
    rver: u16,
    edit: &Edit,
) -> Result<Feature, UpdateFault>
    ensures { Gives (λ f. f) result (feature_after rver edit.now feature.now) }
{
    let count = feature.pointers.as_slice().len();
    if !can_change(edit.splice, count, edit.pointers.as_slice().len()) {
        return Err(UpdateFault::Index(FEATURE, feature.rcid));
    }
    let new = feature_with_changes(alloc, feature, rver, edit)?;
    if new.is_made() {
        Ok(new)
    } else {
        Err(UpdateFault::Shape(FEATURE, feature.rcid))
    }
}
