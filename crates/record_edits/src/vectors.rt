// Modified nodes and edges.
ghost use Rattle.std.specs.Prelude.{◌≡◌};
ghost use Rattle.record_edits.specs.Edits.{given_count, point_after, soundings_after, shape_after, isolated_after, connected_after, edge_after};
ghost use Rattle.update_reader.specs.Faults.{Gives};

use crate::splices::{can_change, items_after, the_one_after};
use chart_model::{Connected, Edge, Isolated, Items, Shape, Sounding};
use plane_geom::Point;
use s57_codes::code::{CONNECTED_NODE, EDGE, ISOLATED_NODE};
use std::alloc::Global;
use update_reader::{Edit, UpdateFault};

/// How many points and soundings are given. The sum doesn't overflow, since both lists lie in memory.
fn given_count(edit: &Edit) -> usize
    ensures { result ≡ given_count edit.now }
{
    edit.points.as_slice().len() + edit.soundings.as_slice().len()
}

/// The one point of the node with this RCNM and number.
fn point_after(rcnm: u8, rcid: u32, edit: &Edit, point: Point) -> Result<Point, UpdateFault>
    ensures { result ≡ point_after rcnm rcid edit.now point }
{
    if !can_change(edit.splice, 1, given_count(edit)) {
        return Err(UpdateFault::Index(rcnm, rcid));
    }
    if !edit.soundings.as_slice().is_empty() {
        return Err(UpdateFault::Shape(rcnm, rcid));
    }
    match the_one_after(edit.splice, edit.points.as_slice(), point) {
        Some(one) => Ok(one),
        None => Err(UpdateFault::Shape(rcnm, rcid)),
    }
}

/// The soundings of the isolated node with this number.
fn soundings_after(
    alloc: Global,
    rcid: u32,
    edit: &Edit,
    soundings: &[Sounding],
) -> Result<Vec<Sounding>, UpdateFault>
    ensures { Gives (λ v. v.items) result (soundings_after rcid edit.now soundings.now) }
{
    if !can_change(edit.splice, soundings.len(), given_count(edit)) {
        return Err(UpdateFault::Index(ISOLATED_NODE, rcid));
    }
    if !edit.points.as_slice().is_empty() {
        return Err(UpdateFault::Shape(ISOLATED_NODE, rcid));
    }
    let list = items_after(alloc, edit.splice, edit.soundings.as_slice(), soundings)?;
    if list.is_empty() {
        return Err(UpdateFault::Shape(ISOLATED_NODE, rcid));
    }
    Ok(list)
}

/// What stands at the isolated node with this number.
fn shape_after(alloc: Global, rcid: u32, edit: &Edit, shape: &Shape) -> Result<Shape, UpdateFault>
    ensures { Gives (λ s. s) result (shape_after rcid edit.now shape.now) }
{
    match shape {
        Shape::One(point) => {
            let one = point_after(ISOLATED_NODE, rcid, edit, *point)?;
            Ok(Shape::One(one))
        }
        Shape::Soundings(list) => {
            let soundings = soundings_after(alloc, rcid, edit, list.as_slice())?;
            Ok(Shape::Soundings(Items::over(soundings)))
        }
    }
}

/// An isolated node after a modification to a version, or the first of `Index` and `Shape` that is due: `Index` where the
/// place, the number or the count of the given points and soundings isn't one that the node has; `Shape` where it isn't left
/// with one point, or with at least one sounding, as it had before, or is given points of the other kind.
pub fn edited_isolated(
    alloc: Global,
    node: &Isolated,
    rver: u16,
    edit: &Edit,
) -> Result<Isolated, UpdateFault>
    ensures { Gives (λ n. n) result (isolated_after rver edit.now node.now) }
{
    let shape = shape_after(alloc, node.rcid, edit, &node.shape)?;
    Ok(Isolated {
        rcid: node.rcid,
        rver,
        shape,
    })
}

/// A connected node after a modification to a version, or the first of `Index` and `Shape` that is due: `Index` where the
/// place, the number or the count of the given points and soundings isn't one that the node has; `Shape` where it isn't left
/// with one point, or is given soundings. It takes no memory.
pub fn edited_connected(node: &Connected, rver: u16, edit: &Edit) -> Result<Connected, UpdateFault>
    ensures { result ≡ connected_after rver edit.now node.now }
{
    let at = point_after(CONNECTED_NODE, node.rcid, edit, node.at)?;
    Ok(Connected {
        rcid: node.rcid,
        rver,
        at,
    })
}

/// An edge after a modification to a version, or the first of `Index` and `Shape` that is due: `Index` where the place, the
/// number or the count of the given points and soundings isn't one that the edge has between its nodes; `Shape` where it is
/// given soundings.
pub fn edited_edge(alloc: Global, edge: &Edge, rver: u16, edit: &Edit) -> Result<Edge, UpdateFault>
    ensures { Gives (λ e. e) result (edge_after rver edit.now edge.now) }
{
    let inner = edge.inner.as_slice();
    if !can_change(edit.splice, inner.len(), given_count(edit)) {
        return Err(UpdateFault::Index(EDGE, edge.rcid));
    }
    if !edit.soundings.as_slice().is_empty() {
        return Err(UpdateFault::Shape(EDGE, edge.rcid));
    }
    let inner = items_after(alloc, edit.splice, edit.points.as_slice(), inner)?;
    Ok(Edge {
        rcid: edge.rcid,
        rver,
        first: edge.first,
        last: edge.last,
        inner: Items::over(inner),
    })
}
