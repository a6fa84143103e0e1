// One record, of whatever kind.
ghost use Rattle.std.specs.Prelude.{◌≡◌};
ghost use Rattle.cell_reader.specs.Faults.{Gives};
ghost use Rattle.cell_reader.specs.Records.{data_set, parameters, after_record};
ghost use Rattle.cell_reader.specs.Views.{contents_of};
ghost use Rattle.record_values.specs.Views.{views};

use crate::fault::CellFault;
use crate::feature::take_feature;
use crate::gathered::Gathered;
use crate::header::{Identity, structure_in, units_in};
use crate::vector::take_vector;
use iso8211_codec::Field;
use record_values::{VectorGroups, identity_in, leads, only};
use s57_codes::tag::{DSID, DSPM, DSSI, FRID, ID, VRID};
use std::alloc::Global;

/// Keeps what the data set record says.
#[tactic(auto, unfolding(crate::specs::Records::data_set))]
fn take_data_set<'a>(
    at: usize,
    fields: &[Field<'a>],
    all: &mut Gathered<'a>,
) -> Result<(), CellFault>
    ensures { Gives (λ _. contents_of all.new) result (data_set at (views fields.now) (contents_of all.old)) }
{
    if all.identity.is_some() {
        return Err(CellFault::Kind(at));
    }
    let _id = only(fields, ID).ok_or(CellFault::Kind(at))?;
    let identity = only(fields, DSID).ok_or(CellFault::Kind(at))?;
    let structure = only(fields, DSSI).ok_or(CellFault::Kind(at))?;
    let identity = identity_in(identity).ok_or(CellFault::Value(at))?;
    let structure = structure_in(structure).ok_or(CellFault::Value(at))?;
    all.identity = Some(Identity {
        identity,
        structure,
    });
    Ok(())
}

/// Keeps what the parameter record says.
#[tactic(auto, unfolding(crate::specs::Records::parameters))]
fn take_parameters<'a>(
    at: usize,
    fields: &[Field<'a>],
    all: &mut Gathered<'a>,
) -> Result<(), CellFault>
    ensures { Gives (λ _. contents_of all.new) result (parameters at (views fields.now) (contents_of all.old)) }
{
    if all.units.is_some() {
        return Err(CellFault::Kind(at));
    }
    let _id = only(fields, ID).ok_or(CellFault::Kind(at))?;
    let body = only(fields, DSPM).ok_or(CellFault::Kind(at))?;
    let units = units_in(body).ok_or(CellFault::Value(at))?;
    all.units = Some(units);
    Ok(())
}

/// Takes in a record at this offset with these fields.
#[tactic(auto, unfolding(crate::specs::Records::after_record))]
pub(crate) fn take_record<'a>(
    alloc: Global,
    at: usize,
    fields: &[Field<'a>],
    groups: &mut VectorGroups,
    all: &mut Gathered<'a>,
) -> Result<(), CellFault>
    ensures { Gives (λ _. contents_of all.new) result (after_record at (views fields.now) (contents_of all.old)) }
{
    if leads(fields, DSID) {
        take_data_set(at, fields, all)
    } else if leads(fields, DSPM) {
        take_parameters(at, fields, all)
    } else if leads(fields, VRID) {
        take_vector(alloc, at, fields, groups, all)
    } else if leads(fields, FRID) {
        take_feature(alloc, at, fields, all)
    } else {
        Err(CellFault::Kind(at))
    }
}
