// What a data set is, and texts.
ghost use Rattle.std.specs.Prelude.{◌≡◌, option_map, IfOk};
ghost use Rattle.s57_records.specs.Fields.{dsid_values};
ghost use Rattle.record_values.specs.DataSets.{identity_in};

use chart_model::Items;
use s57_codes::code::DATA_SET;
use s57_records::{Dsid, read_dsid};
use std::alloc::{AllocError, Global};

/// DSID with the RCNM of a data set record; None where the body isn't of its format, or its RCNM is another.
pub fn identity_in(body: &[u8]) -> Option<Dsid<'_>>
    ensures { option_map dsid_values result ≡ identity_in body.now }
{
    match read_dsid(body) {
        Some(dsid) if dsid.rcnm == DATA_SET => Some(dsid),
        _ => None,
    }
}

/// A text as a list of its own.
pub fn text_of(alloc: Global, text: &[u8]) -> Result<Items<u8>, AllocError>
    ensures { IfOk result (λ items. items ≡ text.now) }
{
    Ok(Items::over(Vec::from_slice(alloc, text)?))
}
