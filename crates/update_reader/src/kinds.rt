// Which fields stand in a record, and how often.
ghost use Rattle.std.specs.Prelude.{◌≡◌};
ghost use Rattle.record_values.specs.Views.{views};
ghost use Rattle.update_reader.specs.Kinds.{has_field, is_single, are_single, inserts};

use iso8211_codec::{Field, Tag};
use record_values::count_of;
use s57_codes::code::INSERT;
use s57_codes::tag::{DSID, DSSI, FOID, FRID, FSPC, ID, SGCC, VRID};
use s57_records::read_frid;

/// Whether a field with this tag stands in a record.
pub(crate) fn has_field(fields: &[Field<'_>], tag: Tag) -> bool
    ensures { result ≡ has_field tag (views fields.now) }
{
    count_of(fields, tag) > 0
}

fn is_single(fields: &[Field<'_>], tag: Tag) -> bool
    ensures { result ≡ is_single (views fields.now) tag }
{
    count_of(fields, tag) <= 1
}

/// Whether the fields that stand at most once in a record do.
pub(crate) fn are_single(fields: &[Field<'_>]) -> bool
    ensures { result ≡ are_single (views fields.now) }
{
    is_single(fields, ID)
        && is_single(fields, DSID)
        && is_single(fields, DSSI)
        && is_single(fields, VRID)
        && is_single(fields, FRID)
        && is_single(fields, FOID)
        && is_single(fields, FSPC)
        && is_single(fields, SGCC)
}

/// Whether a body of FRID is of its format and inserts a feature.
pub(crate) fn inserts(body: &[u8]) -> bool
    ensures { result ≡ inserts body.now }
{
    match read_frid(body) {
        Some(frid) => frid.ruin == INSERT,
        None => false,
    }
}
