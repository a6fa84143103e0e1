// Vector records: nodes and edges.
ghost use Rattle.std.specs.Prelude.{◌≡◌, IfOk};
ghost use Rattle.record_values.specs.Vectors.{is_known, has_whole_groups, shape_of, place_of, ends_of, isolated_of, connected_of, edge_of};
ghost use Rattle.record_values.specs.Views.{views};

use crate::fields::are_whole;
use crate::vector_groups::VectorGroups;
use chart_model::{Connected, Edge, Isolated, Items, Shape, Sounding};
use iso8211_codec::Field;
use plane_geom::Point;
use s57_codes::code::{BEGINNING, CONNECTED_NODE, EDGE, END, ISOLATED_NODE};
use s57_codes::tag::{SG2D, SG3D, VRPT};
use s57_records::{Vrid, Vrpt};
use std::alloc::{AllocError, Global};

/// Whether a body of VRID doesn't begin with an RCNM of a record that isn't read.
pub fn is_known(body: &[u8]) -> bool
    ensures { result ≡ is_known body.now }
{
    match body {
        [rcnm, ..] => *rcnm == ISOLATED_NODE || *rcnm == CONNECTED_NODE || *rcnm == EDGE,
        [] => true,
    }
}

/// Whether the fields of a vector record that repeat a group are whole groups.
pub fn has_whole_groups(fields: &[Field<'_>]) -> bool
    ensures { result ≡ has_whole_groups (views fields.now) }
{
    are_whole(fields, VRPT, 9) && are_whole(fields, SG2D, 8) && are_whole(fields, SG3D, 12)
}

/// What stands at an isolated node: one point, or soundings.
fn shape_of(
    alloc: Global,
    points: &[Point],
    soundings: &[Sounding],
) -> Result<Option<Shape>, AllocError>
    ensures { IfOk result (λ shape. shape ≡ shape_of points.now soundings.now) }
{
    match (points, soundings) {
        ([point], []) => Ok(Some(Shape::One(*point))),
        ([], [_, ..]) => {
            let list = Vec::from_slice(alloc, soundings)?;
            Ok(Some(Shape::Soundings(Items::over(list))))
        }
        _ => Ok(None),
    }
}

/// The place of a connected node: one point.
fn place_of(points: &[Point], soundings: &[Sounding]) -> Option<Point>
    ensures { result ≡ place_of points.now soundings.now }
{
    match (points, soundings) {
        ([point], []) => Some(*point),
        _ => None,
    }
}

/// The numbers of an edge's first and last node, where its two pointers name connected nodes and say which is which.
fn ends_of(ends: &[Vrpt], soundings: &[Sounding]) -> Option<(u32, u32)>
    ensures { result ≡ ends_of ends.now soundings.now }
{
    let ([a, b], []) = (ends, soundings) else {
        return None;
    };
    if a.rcnm != CONNECTED_NODE || b.rcnm != CONNECTED_NODE {
        return None;
    }
    if a.topi == BEGINNING && b.topi == END {
        Some((a.rcid, b.rcid))
    } else if b.topi == BEGINNING && a.topi == END {
        Some((b.rcid, a.rcid))
    } else {
        None
    }
}

/// The isolated node that a record with this identifier and these groups stands for; None where it hasn't one point and no
/// soundings, or soundings and no point.
pub fn isolated_of(
    alloc: Global,
    vrid: Vrid,
    groups: &VectorGroups,
) -> Result<Option<Isolated>, AllocError>
    ensures { IfOk result (λ node. node ≡ isolated_of vrid groups.now.points.items groups.now.soundings.items) }
{
    match shape_of(alloc, &groups.points, &groups.soundings)? {
        Some(shape) => Ok(Some(Isolated {
            rcid: vrid.rcid,
            rver: vrid.rver,
            shape,
        })),
        None => Ok(None),
    }
}

/// The connected node that a record with this identifier and these groups stands for; None where it hasn't one point alone.
pub fn connected_of(vrid: Vrid, groups: &VectorGroups) -> Option<Connected>
    ensures { result ≡ connected_of vrid groups.now.points.items groups.now.soundings.items }
{
    match place_of(&groups.points, &groups.soundings) {
        Some(at) => Some(Connected {
            rcid: vrid.rcid,
            rver: vrid.rver,
            at,
        }),
        None => None,
    }
}

/// The edge that a record with this identifier and these groups stands for; None where it hasn't two pointers to connected
/// nodes, one to its first node and one to its last, or where it has a sounding.
pub fn edge_of(alloc: Global, vrid: Vrid, groups: &VectorGroups) -> Result<Option<Edge>, AllocError>
    ensures { IfOk result (λ edge. edge ≡ edge_of vrid groups.now.ends.items groups.now.points.items groups.now.soundings.items) }
{
    match ends_of(&groups.ends, &groups.soundings) {
        Some((first, last)) => {
            let inner = Items::over(Vec::from_slice(alloc, &groups.points)?);
            Ok(Some(Edge {
                rcid: vrid.rcid,
                rver: vrid.rver,
                first,
                last,
                inner,
            }))
        }
        None => Ok(None),
    }
}
