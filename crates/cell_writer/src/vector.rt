// The records of nodes and edges.
ghost use Rattle.std.specs.Prelude.{◌≡◌, ◌++◌, ◌+◌, ◌∷◌, ◌<◌, ◌^◌, [], All, IsTrue, OnOk, length};
ghost use Rattle.std.specs.List.{flat_map, list_all};
ghost use Rattle.cell_writer.specs.Drafts.{Adds};
ghost use Rattle.cell_writer.specs.Layout.{connected_parts, edge_parts, is_short, isolated_parts, numbered, shape_part};
ghost use Rattle.cell_writer.specs.Sized.{ConnectedFits, EdgeFits, IsolatedFits, ShapeFits};
ghost use Rattle.iso8211_codec.specs.Layout.{record_of};
ghost use Rattle.iso8211_codec.specs.Room.{KeepsRoom};

use crate::draft::Draft;
use crate::fields::{add_ends, add_point, add_points, add_soundings, add_vector};
use chart_model::{Connected, Edge, Isolated, Shape};
use s57_codes::code::{CONNECTED_NODE, EDGE, ISOLATED_NODE};
use std::alloc::AllocError;

/// Adds what stands at an isolated node.
fn add_shape(draft: &mut Draft, shape: &Shape) -> Result<(), AllocError>
    ensures adds { OnOk result (Adds (shape_part shape.now ∷ []) draft.old draft.new) }
    ensures fits { OnOk result (ShapeFits shape.now) }
{
    match shape {
        Shape::One(point) => add_point(draft, *point),
        Shape::Soundings(list) => add_soundings(draft, list.as_slice()),
    }
}

/// Appends the record of an isolated node.
fn write_isolated(
    out: &mut Vec<u8>,
    draft: &mut Draft,
    place: usize,
    node: &Isolated,
) -> Result<(), AllocError>
    requires { IsTrue (is_short (isolated_parts place node.now)) }
    ensures items { OnOk result (out.new.items ≡ out.old.items ++ record_of (isolated_parts place node.now)) }
    ensures room { OnOk result (KeepsRoom out.old out.new) }
    ensures fits { OnOk result (IsolatedFits node.now) }
{
    draft.begin(place)?;
    add_vector(draft, ISOLATED_NODE, node.rcid, node.rver)?;
    add_shape(draft, &node.shape)?;
    draft.write(out)
}

/// Appends the records of isolated nodes, the first of which has this place.
pub(crate) fn write_isolated_nodes(
    out: &mut Vec<u8>,
    draft: &mut Draft,
    first: usize,
    nodes: &[Isolated],
) -> Result<(), AllocError>
    requires short { IsTrue (list_all is_short (numbered isolated_parts first nodes.now)) }
    requires few { first + length nodes.now < 2 ^ 64 }
    ensures items { OnOk result (out.new.items ≡ out.old.items ++ flat_map record_of (numbered isolated_parts first nodes.now)) }
    ensures room { OnOk result (KeepsRoom out.old out.new) }
    ensures fits { OnOk result (All IsolatedFits nodes.now) }
{
    for (index, node) in nodes.iter().enumerate() {
        write_isolated(out, draft, first + index, node)?;
    }
    Ok(())
}

/// Appends the record of a connected node.
fn write_connected(
    out: &mut Vec<u8>,
    draft: &mut Draft,
    place: usize,
    node: Connected,
) -> Result<(), AllocError>
    requires { IsTrue (is_short (connected_parts place node)) }
    ensures items { OnOk result (out.new.items ≡ out.old.items ++ record_of (connected_parts place node)) }
    ensures room { OnOk result (KeepsRoom out.old out.new) }
    ensures fits { OnOk result (ConnectedFits node) }
{
    draft.begin(place)?;
    add_vector(draft, CONNECTED_NODE, node.rcid, node.rver)?;
    add_point(draft, node.at)?;
    draft.write(out)
}

/// Appends the records of connected nodes, the first of which has this place.
pub(crate) fn write_connected_nodes(
    out: &mut Vec<u8>,
    draft: &mut Draft,
    first: usize,
    nodes: &[Connected],
) -> Result<(), AllocError>
    requires short { IsTrue (list_all is_short (numbered connected_parts first nodes.now)) }
    requires few { first + length nodes.now < 2 ^ 64 }
    ensures items { OnOk result (out.new.items ≡ out.old.items ++ flat_map record_of (numbered connected_parts first nodes.now)) }
    ensures room { OnOk result (KeepsRoom out.old out.new) }
    ensures fits { OnOk result (All ConnectedFits nodes.now) }
{
    for (index, node) in nodes.iter().enumerate() {
        write_connected(out, draft, first + index, *node)?;
    }
    Ok(())
}

/// Appends the record of an edge.
fn write_edge(
    out: &mut Vec<u8>,
    draft: &mut Draft,
    place: usize,
    edge: &Edge,
) -> Result<(), AllocError>
    requires { IsTrue (is_short (edge_parts place edge.now)) }
    ensures items { OnOk result (out.new.items ≡ out.old.items ++ record_of (edge_parts place edge.now)) }
    ensures room { OnOk result (KeepsRoom out.old out.new) }
    ensures fits { OnOk result (EdgeFits edge.now) }
{
    draft.begin(place)?;
    add_vector(draft, EDGE, edge.rcid, edge.rver)?;
    add_ends(draft, edge.first, edge.last)?;
    add_points(draft, edge.inner.as_slice())?;
    draft.write(out)
}

/// Appends the records of edges, the first of which has this place.
pub(crate) fn write_edges(
    out: &mut Vec<u8>,
    draft: &mut Draft,
    first: usize,
    edges: &[Edge],
) -> Result<(), AllocError>
    requires short { IsTrue (list_all is_short (numbered edge_parts first edges.now)) }
    requires few { first + length edges.now < 2 ^ 64 }
    ensures items { OnOk result (out.new.items ≡ out.old.items ++ flat_map record_of (numbered edge_parts first edges.now)) }
    ensures room { OnOk result (KeepsRoom out.old out.new) }
    ensures fits { OnOk result (All EdgeFits edges.now) }
{
    for (index, edge) in edges.iter().enumerate() {
        write_edge(out, draft, first + index, edge)?;
    }
    Ok(())
}
