// Changes of nodes and edges.
ghost use Rattle.std.specs.Prelude.{◌≡◌, IfOk};
ghost use Rattle.record_values.specs.Views.{views};
ghost use Rattle.update_reader.specs.Values.{vrid_in, vector_insertion, inserted_vector, deleted_vector, vector_edit, is_controlled, vector_modification, controlled, modified_vector, vector_change};

use crate::change::{Change, Deed, Edit, Splice};
use crate::controls::point_splice;
use crate::record::{is_change, is_plain};
use chart_model::Items;
use iso8211_codec::Field;
use record_values::{
    VectorGroups, are_whole, connected_of, edge_of, has_whole_groups, isolated_of, list_groups,
};
use s57_codes::code::{CONNECTED_NODE, DELETE, INSERT, ISOLATED_NODE, MODIFY};
use s57_codes::tag::{SG2D, SG3D};
use s57_records::{Vrid, read_vrid};
use std::alloc::{AllocError, Global};

fn vrid_in(body: &[u8]) -> Option<Vrid>
    ensures { result ≡ vrid_in body.now }
{
    read_vrid(body)
}

/// The insertion of the node or the edge that these groups make; None where they make none.
fn vector_insertion(
    alloc: Global,
    vrid: Vrid,
    groups: &VectorGroups,
) -> Result<Option<Change>, AllocError>
    ensures { IfOk result (λ change. change ≡ vector_insertion vrid groups.now.ends.items groups.now.points.items groups.now.soundings.items) }
{
    match vrid.rcnm {
        ISOLATED_NODE => match isolated_of(alloc, vrid, groups)? {
            Some(node) => Ok(Some(Change::OfIsolated(Deed::Insert(node)))),
            None => Ok(None),
        },
        CONNECTED_NODE => match connected_of(vrid, groups) {
            Some(node) => Ok(Some(Change::OfConnected(Deed::Insert(node)))),
            None => Ok(None),
        },
        _ => match edge_of(alloc, vrid, groups)? {
            Some(edge) => Ok(Some(Change::OfEdges(Deed::Insert(edge)))),
            None => Ok(None),
        },
    }
}

fn inserted_vector(
    alloc: Global,
    vrid: Vrid,
    fields: &[Field<'_>],
    groups: &mut VectorGroups,
) -> Result<Option<Change>, AllocError>
    ensures { IfOk result (λ change. change ≡ inserted_vector vrid (views fields.now)) }
{
    if !is_plain(fields) || !has_whole_groups(fields) {
        return Ok(None);
    }
    groups.list(fields)?;
    vector_insertion(alloc, vrid, groups)
}

fn deleted_vector(vrid: Vrid) -> Change
    ensures { result ≡ deleted_vector vrid }
{
    match vrid.rcnm {
        ISOLATED_NODE => Change::OfIsolated(Deed::Delete(vrid.rcid, vrid.rver)),
        CONNECTED_NODE => Change::OfConnected(Deed::Delete(vrid.rcid, vrid.rver)),
        _ => Change::OfEdges(Deed::Delete(vrid.rcid, vrid.rver)),
    }
}

/// What a modified node or edge is given.
fn vector_edit(
    alloc: Global,
    splice: Option<Splice>,
    fields: &[Field<'_>],
) -> Result<Edit, AllocError>
    ensures { IfOk result (λ edit. edit ≡ vector_edit splice (views fields.now)) }
{
    let mut points = Vec::new(alloc);
    list_groups(fields, SG2D, 8, &mut points)?;
    let mut soundings = Vec::new(alloc);
    list_groups(fields, SG3D, 12, &mut soundings)?;
    Ok(Edit {
        attributes: Items::over(Vec::new(alloc)),
        splice,
        pointers: Items::over(Vec::new(alloc)),
        points: Items::over(points),
        soundings: Items::over(soundings),
    })
}

/// Whether points or soundings are given, not both, and neither without saying how they change.
fn is_controlled(edit: &Edit) -> bool
    ensures { result ≡ is_controlled edit.now }
{
    let no_points = edit.points.as_slice().is_empty();
    let no_soundings = edit.soundings.as_slice().is_empty();
    (no_points && no_soundings) || (edit.splice.is_some() && (no_points || no_soundings))
}

/// Whether the points and soundings of a modified record are whole and go with how they change.
fn controlled(edit: &Edit, fields: &[Field<'_>]) -> bool
    ensures { result ≡ controlled edit.now (views fields.now) }
{
    is_change(fields)
        && are_whole(fields, SG2D, 8)
        && are_whole(fields, SG3D, 12)
        && is_controlled(edit)
}

fn vector_modification(vrid: Vrid, edit: Edit) -> Change
    ensures { result ≡ vector_modification vrid edit }
{
    match vrid.rcnm {
        ISOLATED_NODE => Change::OfIsolated(Deed::Modify(vrid.rcid, vrid.rver, edit)),
        CONNECTED_NODE => Change::OfConnected(Deed::Modify(vrid.rcid, vrid.rver, edit)),
        _ => Change::OfEdges(Deed::Modify(vrid.rcid, vrid.rver, edit)),
    }
}

fn modified_vector(
    alloc: Global,
    vrid: Vrid,
    fields: &[Field<'_>],
) -> Result<Option<Change>, AllocError>
    ensures { IfOk result (λ change. change ≡ modified_vector vrid (views fields.now)) }
{
    let Some(splice) = point_splice(fields) else {
        return Ok(None);
    };
    let edit = vector_edit(alloc, splice, fields)?;
    if !controlled(&edit, fields) {
        return Ok(None);
    }
    Ok(Some(vector_modification(vrid, edit)))
}

/// The change of a vector record with this body of VRID; None where a value isn't one that an update may have.
#[tactic(auto, unfolding(crate::specs::Values::vector_change))]
pub(crate) fn vector_change(
    alloc: Global,
    body: &[u8],
    fields: &[Field<'_>],
    groups: &mut VectorGroups,
) -> Result<Option<Change>, AllocError>
    ensures { IfOk result (λ change. change ≡ vector_change body.now (views fields.now)) }
{
    let Some(vrid) = vrid_in(body) else {
        return Ok(None);
    };
    match vrid.ruin {
        INSERT => inserted_vector(alloc, vrid, fields, groups),
        DELETE => Ok(Some(deleted_vector(vrid))),
        MODIFY => modified_vector(alloc, vrid, fields),
        _ => Ok(None),
    }
}
