// How pointers, points and soundings of a modified record change.
ghost use Rattle.std.specs.Prelude.{◌≡◌};
ghost use Rattle.record_values.specs.Views.{views};
ghost use Rattle.s57_codes.specs.Catalogue.{tag_fspc, tag_sgcc};
ghost use Rattle.s57_records.specs.Fields.{fspc, sgcc};
ghost use Rattle.update_reader.specs.Controls.{splice_of, splice_in, splice};

use crate::change::Splice;
use crate::kinds::has_field;
use iso8211_codec::Field;
use record_values::only;
use s57_codes::code::{DELETE, INSERT, MODIFY};
use s57_codes::tag::{FSPC, SGCC};
use s57_records::{read_fspc, read_sgcc};

/// What an instruction does with so many items at a place; None where it is no instruction.
fn splice_of(instruction: u8, place: u16, count: u16) -> Option<Splice>
    ensures { result ≡ splice_of instruction place count }
{
    let (going, coming) = match instruction {
        INSERT => (0, count),
        DELETE => (count, 0),
        MODIFY => (count, count),
        _ => return None,
    };
    Some(Splice {
        place,
        going,
        coming,
    })
}

fn pointer_splice_in(body: &[u8]) -> Option<Splice>
    ensures { result ≡ splice_in fspc body.now }
{
    match read_fspc(body) {
        Some(fspc) => splice_of(fspc.fsui, fspc.fsix, fspc.nspt),
        None => None,
    }
}

fn point_splice_in(body: &[u8]) -> Option<Splice>
    ensures { result ≡ splice_in sgcc body.now }
{
    match read_sgcc(body) {
        Some(sgcc) => splice_of(sgcc.ccui, sgcc.ccix, sgcc.ccnc),
        None => None,
    }
}

/// How a feature's pointers change: by its one FSPC, or not at all. None where FSPC isn't of its format or has no
/// instruction.
pub(crate) fn pointer_splice(fields: &[Field<'_>]) -> Option<Option<Splice>>
    ensures { result ≡ splice fspc tag_fspc (views fields.now) }
{
    if !has_field(fields, FSPC) {
        return Some(None);
    }
    let Some(body) = only(fields, FSPC) else {
        return None;
    };
    match pointer_splice_in(body) {
        Some(splice) => Some(Some(splice)),
        None => None,
    }
}

/// How the points or soundings of a node or an edge change: by its one SGCC, or not at all. None where SGCC isn't of its
/// format or has no instruction.
pub(crate) fn point_splice(fields: &[Field<'_>]) -> Option<Option<Splice>>
    ensures { result ≡ splice sgcc tag_sgcc (views fields.now) }
{
    if !has_field(fields, SGCC) {
        return Some(None);
    }
    let Some(body) = only(fields, SGCC) else {
        return None;
    };
    match point_splice_in(body) {
        Some(splice) => Some(Some(splice)),
        None => None,
    }
}
