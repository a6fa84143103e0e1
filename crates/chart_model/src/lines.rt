// The points of edges and the segments of areas.
ghost use Rattle.chart_model.specs.RecordIndexes.{AreRecordIndexes};
ghost use Rattle.chart_model.specs.Lines.{area_segments, edge_at, edge_points, node_at, pointed};
ghost use Rattle.plane_geom.specs.Segments.{joins};
ghost use Rattle.std.specs.List.{flat_map, HoldsAt};
ghost use Rattle.std.specs.Option.{option_to_list};
ghost use Rattle.std.specs.Prelude.{◌≡◌, ◌++◌, ◌<◌, IfOk, OnOk, length};

use crate::record_indexes::{RecordIndexes, connected_of, edge_of};
use crate::{Chart, Edge, Parts, Pointer};
use plane_geom::{Point, Seg};
use s57_codes::code::REVERSE;
use std::alloc::{AllocError, Global};

fn append_node(
    parts: &Parts,
    indexes: &RecordIndexes,
    number: u32,
    points: &mut Vec<Point>,
) -> Result<(), AllocError>
    requires { AreRecordIndexes parts.now indexes.now }
    ensures { OnOk result (points.new.items ≡ points.old.items ++ option_to_list (node_at parts.now number)) }
{
    match connected_of(parts, indexes, number) {
        Some(node) => {
            points.push(node.at)?;
            Ok(())
        }
        None => Ok(()),
    }
}

fn append_points(
    parts: &Parts,
    indexes: &RecordIndexes,
    edge: &Edge,
    points: &mut Vec<Point>,
) -> Result<(), AllocError>
    requires { AreRecordIndexes parts.now indexes.now }
    ensures { OnOk result (points.new.items ≡ points.old.items ++ edge_points parts.now edge.now) }
{
    append_node(parts, indexes, edge.first, points)?;
    points.extend_from_slice(edge.inner.as_slice())?;
    append_node(parts, indexes, edge.last, points)
}

/// Replaces these by the points of the edge with a number, if there is one.
fn put_points(
    parts: &Parts,
    indexes: &RecordIndexes,
    number: u32,
    points: &mut Vec<Point>,
) -> Result<(), AllocError>
    requires { AreRecordIndexes parts.now indexes.now }
    ensures { OnOk result (points.new.items ≡ flat_map (edge_points parts.now) (option_to_list (edge_at parts.now number))) }
{
    points.clear();
    match edge_of(parts, indexes, number) {
        Some(edge) => append_points(parts, indexes, edge, points),
        None => Ok(()),
    }
}

fn append_joined(points: &[Point], segments: &mut Vec<Seg>) -> Result<(), AllocError>
    ensures { OnOk result (segments.new.items ≡ segments.old.items ++ joins points.now) }
{
    for at in 1..points.len() {
        segments.push(Seg {
            a: points[at - 1],
            b: points[at],
        })?;
    }
    Ok(())
}

/// Replaces these by the points of the edge that a pointer names, in the pointer's direction.
fn put_pointed(
    parts: &Parts,
    indexes: &RecordIndexes,
    pointer: Pointer,
    points: &mut Vec<Point>,
) -> Result<(), AllocError>
    requires { AreRecordIndexes parts.now indexes.now }
    ensures { OnOk result (joins points.new.items ≡ pointed parts.now pointer) }
{
    put_points(parts, indexes, pointer.rcid, points)?;
    if pointer.ornt != REVERSE {
        return Ok(());
    }
    points.reverse();
    Ok(())
}

impl Chart {
    /// The points of the edge at a place in its list: its first node, its inner points, its last node.
    pub fn edge_points(&self, alloc: Global, edge: usize) -> Result<Vec<Point>, AllocError>
        requires { edge < length self.now.edges }
        ensures { IfOk result (λ points. HoldsAt (λ e. points.items ≡ edge_points self.now e) self.now.edges edge) }
    {
        let edge = &self.parts.edges.as_slice()[edge];
        let mut points = Vec::with_capacity(alloc, edge.inner.as_slice().len() + 2)?;
        append_points(&self.parts, &self.indexes, edge, &mut points)?;
        Ok(points)
    }

    /// The segments of the feature at a place in its list, as an area's, pointer by pointer: those of an edge in its
    /// direction, or where ORNT is 2 in reversed order and each turned round (S-57 part 3, 4.7.3).
    pub fn area_segments(&self, alloc: Global, feature: usize) -> Result<Vec<Seg>, AllocError>
        requires { feature < length self.now.features }
        ensures { IfOk result (λ segments. HoldsAt (λ f. segments.items ≡ area_segments self.now f) self.now.features feature) }
    {
        let pointers = self.parts.features.as_slice()[feature].pointers.as_slice();
        let mut points = Vec::new(alloc);
        let mut segments = Vec::new(alloc);
        for pointer in pointers {
            put_pointed(&self.parts, &self.indexes, *pointer, &mut points)?;
            append_joined(&points, &mut segments)?;
        }
        Ok(segments)
    }
}
