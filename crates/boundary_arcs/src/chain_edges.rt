// Chains of lines become edges.
ghost use Rattle.std.specs.Prelude.{◌≡◌, ◌≢◌, ◌+◌, ◌*◌, ◌^◌, ◌<◌, ◌≤◌, Some, nat_eq, [], length, map, slice_get, All, AllPairs, IfOk, OnOk};
ghost use Rattle.std.specs.List.{AllZip};
ghost use Rattle.boundary_arcs.specs.ChainEdges.{point_at, chain_points, IsHalfOf, HasFacesBelow, IsArcOf, HasNumbers, AddsNodes, UsesNew, UsesEach, AreArcsOfNet};
ghost use Rattle.boundary_arcs.specs.Edges.{face_on};
ghost use Rattle.boundary_arcs.specs.Views.{arcs_view};
ghost use Rattle.chains.specs.Nets.{IsNet, AreChains, left_of, right_of};
ghost use Rattle.indexmap.specs.IndexSet.{insert_key};

use crate::closed_chains::{begin_of, begin_point, end_of, turn_all};
use crate::net::Net;
use crate::{Arc, Arcs, Side};
use chains::{Half, Line, trace_chains};
use chart_model::Items;
use indexmap::IndexSet;
use plane_geom::Point;
use std::alloc::{AllocError, Global};

/// A side with a face by its number, or outside.
fn side_of(face: Option<u32>) -> Side
    ensures { face_on result ≡ face }
{
    match face {
        None => Side::Outside,
        Some(k) => Side::Face(k),
    }
}

/// What lies on the left of a half.
fn left_side(lines: &[Line], half: Half) -> Side
    requires { IsHalfOf lines.now half }
    ensures { face_on result ≡ left_of lines.now half }
{
    let line = lines[half.line as usize];
    side_of(if half.forward { line.left } else { line.right })
}

/// What lies on the right of a half.
fn right_side(lines: &[Line], half: Half) -> Side
    requires { IsHalfOf lines.now half }
    ensures { face_on result ≡ right_of lines.now half }
{
    let line = lines[half.line as usize];
    side_of(if half.forward { line.right } else { line.left })
}

/// The points of a chain, from its first to its last.
fn points_of(
    alloc: Global,
    lines: &[Line],
    points: &[Point],
    chain: &[Half],
) -> Result<Vec<Point>, AllocError>
    requires net { IsNet lines.now (length points.now) }
    requires inside { All (IsHalfOf lines.now) chain.now }
    requires some { 0 < length chain.now }
    ensures { IfOk result (λ v. v.items ≡ chain_points points.now lines.now chain.now) }
{
    let mut written: Vec<Point> = Vec::with_capacity(alloc, chain.len() + 1)?;
    for i in 0..chain.len() {
        written.push(begin_point(lines, points, chain[i]))?;
    }
    let last = end_of(lines, chain[chain.len() - 1]);
    written.push(points[last as usize])?;
    Ok(written)
}

/// The number of a node among those met so far; a new one comes last.
fn node_of(nodes: &mut IndexSet<u32>, point: u32) -> Result<u32, AllocError>
    requires { length nodes.old.keys < 2 ^ 28 }
    ensures number { IfOk result (λ n. slice_get nodes.new.keys n ≡ Some point) }
    ensures keys { OnOk result (nodes.new.keys ≡ insert_key nat_eq nodes.old.keys point) }
{
    let (number, _) = nodes.insert_full(point)?;
    Ok(number as u32)
}

/// The edge along a chain.
fn arc_of(
    alloc: Global,
    lines: &[Line],
    points: &[Point],
    chain: &[Half],
    nodes: &mut IndexSet<u32>,
) -> Result<Arc, AllocError>
    requires net { IsNet lines.now (length points.now) }
    requires inside { All (IsHalfOf lines.now) chain.now }
    requires some { 0 < length chain.now }
    requires few { length nodes.old.keys + 2 ≤ 2 ^ 28 }
    ensures runs { IfOk result (λ a. IsArcOf points.now lines.now a chain.now) }
    ensures numbers { IfOk result (λ a. HasNumbers nodes.new.keys lines.now a chain.now) }
    ensures nodes { OnOk result (AddsNodes (length points.now) nodes.old.keys nodes.new.keys) }
    ensures used { IfOk result (λ a. UsesNew nodes.old.keys nodes.new.keys a) }
{
    let first = chain[0];
    let last = chain[chain.len() - 1];
    let begin = node_of(nodes, begin_of(lines, first))?;
    let end = node_of(nodes, end_of(lines, last))?;
    let written = points_of(alloc, lines, points, chain)?;
    Ok(Arc {
        points: Items::over(written),
        begin,
        end,
        left: left_side(lines, first),
        right: right_side(lines, first),
    })
}

/// The edges along chains, and the numbers of the points that are nodes.
fn arcs_of(
    alloc: Global,
    lines: &[Line],
    points: &[Point],
    chains: &[Vec<Half>],
    nodes: &mut IndexSet<u32>,
) -> Result<Vec<Arc>, AllocError>
    requires net { IsNet lines.now (length points.now) }
    requires chains { AreChains lines.now (map (λ c. c.items) chains.now) }
    requires few { length lines.now ≤ 2 ^ 27 }
    requires empty { nodes.old.keys ≡ [] }
    ensures run { IfOk result (λ v. AllZip (IsArcOf points.now lines.now) v.items (map (λ c. c.items) chains.now)) }
    ensures numbers { IfOk result (λ v. AllZip (HasNumbers nodes.new.keys lines.now) v.items (map (λ c. c.items) chains.now)) }
    ensures inside { OnOk result (All (λ p. p < length points.now) nodes.new.keys) }
    ensures nodes { OnOk result (length nodes.new.keys ≤ 2 ^ 28) }
    ensures used { IfOk result (λ v. UsesEach nodes.new.keys v.items) }
{
    let mut arcs: Vec<Arc> = Vec::with_capacity(alloc, chains.len())?;
    for i in 0..chains.len() {
        let arc = arc_of(alloc, lines, points, &chains[i], nodes)?;
        arcs.push(arc)?;
    }
    Ok(arcs)
}

/// Points by their numbers.
fn points_at(alloc: Global, points: &[Point], numbers: &[u32]) -> Result<Vec<Point>, AllocError>
    requires { All (λ p. p < length points.now) numbers.now }
    ensures { IfOk result (λ v. v.items ≡ map (point_at points.now) numbers.now) }
{
    let mut found: Vec<Point> = Vec::with_capacity(alloc, numbers.len())?;
    for i in 0..numbers.len() {
        found.push(points[numbers[i] as usize])?;
    }
    Ok(found)
}

/// The edges that the lines of a net are put together to: each line stands in one of them, once. A closed edge begins at
/// its least point by x and then y, unless it begins at a junction.
pub(crate) fn assemble(alloc: Global, net: Net, faces: u32) -> Result<Arcs, AllocError>
    requires net { IsNet net.lines.items (length net.points.keys) }
    requires few { length net.lines.items ≤ 2 ^ 27 }
    requires once { AllPairs ◌≢◌ net.points.keys }
    requires sides { All (HasFacesBelow faces) net.lines.items }
    ensures faces { IfOk result (λ a. (arcs_view a).faces ≡ faces) }
    ensures arcs { IfOk result (λ a. AreArcsOfNet net.points.keys net.lines.items (arcs_view a).arcs) }
{
    let points = net.points.as_slice();
    let lines = net.lines.as_slice();
    let mut chains = trace_chains(alloc, lines, points.len())?;
    turn_all(alloc, lines, points, &mut chains)?;
    let mut numbers: IndexSet<u32> = IndexSet::new(alloc);
    let arcs = arcs_of(alloc, lines, points, &chains, &mut numbers)?;
    let nodes = points_at(alloc, points, numbers.as_slice())?;
    Ok(Arcs { nodes, arcs, faces })
}
