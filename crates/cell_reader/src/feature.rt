// Feature records.
ghost use Rattle.std.specs.Prelude.{◌≡◌};
ghost use Rattle.cell_reader.specs.Faults.{Gives};
ghost use Rattle.cell_reader.specs.Identifiers.{feature_in};
ghost use Rattle.cell_reader.specs.Records.{feature};
ghost use Rattle.cell_reader.specs.Views.{contents_of};
ghost use Rattle.record_values.specs.Views.{views};

use crate::fault::CellFault;
use crate::gathered::Gathered;
use iso8211_codec::Field;
use record_values::{feature_of, name_in, only};
use s57_codes::code::{FEATURE, INSERT};
use s57_codes::tag::{FOID, FRID, ID};
use s57_records::{Frid, read_frid};
use std::alloc::Global;

/// FRID of a feature that is inserted.
fn feature_in(body: &[u8]) -> Option<Frid>
    ensures { result ≡ feature_in body.now }
{
    match read_frid(body) {
        Some(frid) if frid.rcnm == FEATURE && frid.ruin == INSERT => Some(frid),
        _ => None,
    }
}

/// Adds what a feature record stands for.
#[tactic(auto, unfolding(crate::specs::Records::feature))]
pub(crate) fn take_feature(
    alloc: Global,
    at: usize,
    fields: &[Field<'_>],
    all: &mut Gathered<'_>,
) -> Result<(), CellFault>
    ensures { Gives (λ _. contents_of all.new) result (feature at (views fields.now) (contents_of all.old)) }
{
    let _id = only(fields, ID).ok_or(CellFault::Kind(at))?;
    let identifier = only(fields, FRID).ok_or(CellFault::Kind(at))?;
    let name = only(fields, FOID).ok_or(CellFault::Kind(at))?;
    let frid = feature_in(identifier).ok_or(CellFault::Value(at))?;
    let foid = name_in(name).ok_or(CellFault::Value(at))?;
    let feature = feature_of(alloc, frid, foid, fields)?.ok_or(CellFault::Value(at))?;
    all.features.push(feature)?;
    Ok(())
}
