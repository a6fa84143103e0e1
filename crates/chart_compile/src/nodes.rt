// Nodes and edges: soundings, the ends of edges, and the edges themselves.
ghost use Rattle.boundary_arcs.specs.Edges.{inner};
ghost use Rattle.boundary_arcs.specs.Views.{arcs_view};
ghost use Rattle.built_parts.specs.Nodes.{IsNodeIn, connected_records, edge_record, edge_records, isolated_record, isolated_records, nodes_in, sounding_of};
ghost use Rattle.shoal_buffer.specs.Views.{charted_view};
ghost use Rattle.std.specs.Prelude.{◌≡◌, ◌+◌, ◌*◌, ◌^◌, ◌<◌, ◌≤◌, All, IfOk, length, map, take};

use boundary_arcs::{Arc, Arcs};
use chart_model::{Connected, Edge, Isolated, Items, Shape, Sounding};
use depth_grid::NodeId;
use plane_geom::Point;
use shoal_buffer::Charted;
use std::alloc::{AllocError, Global};

// How many soundings one node's record has at most.
const SOUNDINGS_A_NODE: usize = 2000;

// The sounding at a node.
fn sounding(ch: &Charted, node: NodeId) -> Sounding
    requires { IsNodeIn (charted_view ch.now) node }
    ensures { result ≡ sounding_of (charted_view ch.now) node }
{
    let grid = ch.grid();
    Sounding {
        at: Point {
            x: grid.x(node.col),
            y: grid.y(node.row),
        },
        // a chosen node is kept, and so has a depth, as `IsSelection` says: nothing here asks for it
        depth: ch.c(node).unwrap_or(0),
    }
}

fn soundings(alloc: Global, ch: &Charted, nodes: &[NodeId]) -> Result<Items<Sounding>, AllocError>
    requires { All (IsNodeIn (charted_view ch.now)) nodes.now }
    ensures { IfOk result (λ list. list ≡ map (sounding_of (charted_view ch.now)) nodes.now) }
{
    let mut list = Vec::with_capacity(alloc, nodes.len())?;
    for node in nodes {
        list.push(sounding(ch, *node))?;
    }
    Ok(Items::over(list))
}

// The isolated node at a place, counted from 0, with the soundings of these nodes.
fn isolated(
    alloc: Global,
    ch: &Charted,
    place: usize,
    nodes: &[NodeId],
) -> Result<Isolated, AllocError>
    requires few { place < 2 ^ 20 }
    requires inside { All (IsNodeIn (charted_view ch.now)) nodes.now }
    ensures { IfOk result (λ n. n ≡ isolated_record (charted_view ch.now) (place + 1) nodes.now) }
{
    Ok(Isolated {
        rcid: place as u32 + 1,
        rver: 1,
        shape: Shape::Soundings(soundings(alloc, ch, nodes)?),
    })
}

// The first nodes, as many as one record has.
fn prefix(nodes: &[NodeId]) -> &[NodeId]
    ensures { result.now ≡ take 2000 nodes.now }
{
    &nodes[..nodes.len().min(SOUNDINGS_A_NODE)]
}

// The nodes that have their soundings in the isolated node at a place.
fn nodes_at(nodes: &[NodeId], place: usize) -> &[NodeId]
    requires { 2000 * place < length nodes.now }
    ensures { result.now ≡ nodes_in nodes.now place }
{
    prefix(&nodes[SOUNDINGS_A_NODE * place..])
}

/// The isolated nodes: the soundings in their order, 2,000 a record.
pub(crate) fn isolated_of(
    alloc: Global,
    ch: &Charted,
    nodes: &[NodeId],
) -> Result<Vec<Isolated>, AllocError>
    requires few { length nodes.now ≤ 1050625 }
    requires inside { All (IsNodeIn (charted_view ch.now)) nodes.now }
    ensures { IfOk result (λ list. list.items ≡ isolated_records (charted_view ch.now) nodes.now) }
{
    let count = nodes.len().div_ceil(SOUNDINGS_A_NODE);
    let mut list = Vec::with_capacity(alloc, count)?;
    for place in 0..count {
        list.push(isolated(alloc, ch, place, nodes_at(nodes, place))?)?;
    }
    Ok(list)
}

/// The connected nodes: those where edges begin and end, numbered from 1.
pub(crate) fn connected_of(alloc: Global, nodes: &[Point]) -> Result<Vec<Connected>, AllocError>
    requires { length nodes.now ≤ 2 ^ 28 }
    ensures { IfOk result (λ list. list.items ≡ connected_records nodes.now) }
{
    let mut list = Vec::with_capacity(alloc, nodes.len())?;
    for k in 0..nodes.len() {
        list.push(Connected {
            rcid: k as u32 + 1,
            rver: 1,
            at: nodes[k],
        })?;
    }
    Ok(list)
}

// The points of an edge between its ends.
fn inner(alloc: Global, arc: &Arc) -> Result<Items<Point>, AllocError>
    requires { 2 ≤ length arc.now.points }
    ensures { IfOk result (λ points. points ≡ inner arc.now) }
{
    let points = arc.points.as_slice();
    Ok(Items::over(Vec::from_slice(alloc, &points[1..points.len() - 1])?))
}

// The edge with a number, counted from 0.
fn edge(alloc: Global, arcs: &Arcs, k: usize) -> Result<Edge, AllocError>
    requires { k < length (arcs_view arcs.now).arcs }
    ensures { IfOk result (λ e. e ≡ edge_record (arcs_view arcs.now).arcs k) }
{
    let arc = arcs.arc(k);
    Ok(Edge {
        rcid: k as u32 + 1,
        rver: 1,
        first: arc.begin + 1,
        last: arc.end + 1,
        inner: inner(alloc, arc)?,
    })
}

/// The edges, numbered from 1.
pub(crate) fn edges_of(alloc: Global, arcs: &Arcs) -> Result<Vec<Edge>, AllocError>
    ensures { IfOk result (λ list. list.items ≡ edge_records (arcs_view arcs.now).arcs) }
{
    let mut list = Vec::with_capacity(alloc, arcs.count())?;
    for k in 0..arcs.count() {
        list.push(edge(alloc, arcs, k)?)?;
    }
    Ok(list)
}
