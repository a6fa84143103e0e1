// Vector records: nodes and edges.
ghost use Rattle.std.specs.Prelude.{◌≡◌};
ghost use Rattle.cell_reader.specs.Faults.{Gives};
ghost use Rattle.cell_reader.specs.Identifiers.{vector_in};
ghost use Rattle.cell_reader.specs.Records.{add_isolated, add_connected, add_edge, add_vector, vector};
ghost use Rattle.cell_reader.specs.Views.{contents_of};
ghost use Rattle.record_values.specs.Views.{views};

use crate::fault::CellFault;
use crate::gathered::Gathered;
use iso8211_codec::Field;
use record_values::{
    VectorGroups, connected_of, edge_of, has_whole_groups, is_known, isolated_of, only,
};
use s57_codes::code::{CONNECTED_NODE, INSERT, ISOLATED_NODE};
use s57_codes::tag::{ID, VRID};
use s57_records::{Vrid, read_vrid};
use std::alloc::Global;

/// VRID of a record that is inserted.
fn vector_in(body: &[u8]) -> Option<Vrid>
    ensures { result ≡ vector_in body.now }
{
    match read_vrid(body) {
        Some(vrid) if vrid.ruin == INSERT => Some(vrid),
        _ => None,
    }
}

/// Adds an isolated node.
fn add_isolated(
    alloc: Global,
    at: usize,
    vrid: Vrid,
    groups: &VectorGroups,
    all: &mut Gathered<'_>,
) -> Result<(), CellFault>
    ensures { Gives (λ _. contents_of all.new) result (add_isolated at vrid groups.now.points.items groups.now.soundings.items (contents_of all.old)) }
{
    let node = isolated_of(alloc, vrid, groups)?.ok_or(CellFault::Value(at))?;
    all.isolated.push(node)?;
    Ok(())
}

/// Adds a connected node.
fn add_connected(
    at: usize,
    vrid: Vrid,
    groups: &VectorGroups,
    all: &mut Gathered<'_>,
) -> Result<(), CellFault>
    ensures { Gives (λ _. contents_of all.new) result (add_connected at vrid groups.now.points.items groups.now.soundings.items (contents_of all.old)) }
{
    let node = connected_of(vrid, groups).ok_or(CellFault::Value(at))?;
    all.connected.push(node)?;
    Ok(())
}

/// Adds an edge.
fn add_edge(
    alloc: Global,
    at: usize,
    vrid: Vrid,
    groups: &VectorGroups,
    all: &mut Gathered<'_>,
) -> Result<(), CellFault>
    ensures { Gives (λ _. contents_of all.new) result (add_edge at vrid groups.now.ends.items groups.now.points.items groups.now.soundings.items (contents_of all.old)) }
{
    let edge = edge_of(alloc, vrid, groups)?.ok_or(CellFault::Value(at))?;
    all.edges.push(edge)?;
    Ok(())
}

/// Adds what a vector record with this identifier stands for.
#[tactic(auto, unfolding(crate::specs::Records::add_vector))]
fn place(
    alloc: Global,
    at: usize,
    vrid: Vrid,
    fields: &[Field<'_>],
    groups: &mut VectorGroups,
    all: &mut Gathered<'_>,
) -> Result<(), CellFault>
    ensures { Gives (λ _. contents_of all.new) result (add_vector at vrid (views fields.now) (contents_of all.old)) }
{
    groups.list(fields)?;
    match vrid.rcnm {
        ISOLATED_NODE => add_isolated(alloc, at, vrid, groups, all),
        CONNECTED_NODE => add_connected(at, vrid, groups, all),
        _ => add_edge(alloc, at, vrid, groups, all),
    }
}

/// Adds what a vector record stands for.
#[tactic(auto, unfolding(crate::specs::Records::vector))]
pub(crate) fn take_vector(
    alloc: Global,
    at: usize,
    fields: &[Field<'_>],
    groups: &mut VectorGroups,
    all: &mut Gathered<'_>,
) -> Result<(), CellFault>
    ensures { Gives (λ _. contents_of all.new) result (vector at (views fields.now) (contents_of all.old)) }
{
    let _id = only(fields, ID).ok_or(CellFault::Kind(at))?;
    let body = only(fields, VRID).ok_or(CellFault::Kind(at))?;
    if !is_known(body) {
        return Err(CellFault::Kind(at));
    }
    let vrid = vector_in(body).ok_or(CellFault::Value(at))?;
    if !has_whole_groups(fields) {
        return Err(CellFault::Value(at));
    }
    place(alloc, at, vrid, fields, groups, all)
}
