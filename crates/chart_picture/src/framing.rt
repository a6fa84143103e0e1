// The frame of a chart, and places in it.
ghost use Rattle.std.specs.Prelude.{◌≡◌, ◌+◌, ◌*◌, ◌/◌, ◌^◌, ◌≤◌, ◌<◌, fold, max};
ghost use Rattle.chart_picture.specs.Frames.{bounds_of, by_connected, by_edge, by_isolated, by_sounding, distance, down_of, frame_by, frame_of, greater, IsFrame, lesser, middle_of, mm_of, right_of, widened, width_at};

use crate::frame::{Bounds, Frame};
use chart_model::{Connected, Edge, Isolated, Parts, Shape, Sounding};
use plane_geom::Point;

#[tactic(auto, unfolding(crate::specs::Frames::lesser))]
fn lower(a: i32, b: i32) -> i32
    ensures { result ≡ lesser a b }
{
    if b < a { b } else { a }
}

#[tactic(auto, unfolding(crate::specs::Frames::greater))]
fn higher(a: i32, b: i32) -> i32
    ensures { result ≡ greater a b }
{
    if a < b { b } else { a }
}

#[tactic(auto, unfolding(crate::specs::Frames::widened))]
fn widen(b: Bounds, p: Point) -> Bounds
    ensures { result ≡ widened b p }
{
    let west = lower(b.west, p.x);
    let east = higher(b.east, p.x);
    let south = lower(b.south, p.y);
    let north = higher(b.north, p.y);
    Bounds {
        west,
        east,
        south,
        north,
    }
}

fn widen_by_nodes(b: Bounds, nodes: &[Connected]) -> Bounds
    ensures { result ≡ fold by_connected b nodes.now }
{
    let mut b = b;
    for node in nodes {
        b = widen(b, node.at);
    }
    b
}

#[tactic(auto, unfolding(crate::specs::Frames::by_edge))]
fn widen_by_edge(b: Bounds, edge: &Edge) -> Bounds
    ensures { result ≡ by_edge b edge.now }
{
    let mut b = b;
    for p in edge.inner.as_slice() {
        b = widen(b, *p);
    }
    b
}

fn widen_by_edges(b: Bounds, edges: &[Edge]) -> Bounds
    ensures { result ≡ fold by_edge b edges.now }
{
    let mut b = b;
    for edge in edges {
        b = widen_by_edge(b, edge);
    }
    b
}

fn widen_by_soundings(b: Bounds, soundings: &[Sounding]) -> Bounds
    ensures { result ≡ fold by_sounding b soundings.now }
{
    let mut b = b;
    for sounding in soundings {
        b = widen(b, sounding.at);
    }
    b
}

#[tactic(auto, unfolding(crate::specs::Frames::by_isolated))]
fn widen_by_isolated(b: Bounds, node: &Isolated) -> Bounds
    ensures { result ≡ by_isolated b node.now }
{
    match &node.shape {
        Shape::One(_) => b,
        Shape::Soundings(soundings) => widen_by_soundings(b, soundings.as_slice()),
    }
}

fn widen_by_all_isolated(b: Bounds, nodes: &[Isolated]) -> Bounds
    ensures { result ≡ fold by_isolated b nodes.now }
{
    let mut b = b;
    for node in nodes {
        b = widen_by_isolated(b, node);
    }
    b
}

/// How far the points of a chart reach.
#[tactic(auto, unfolding(crate::specs::Frames::bounds_of))]
fn bounds(parts: &Parts) -> Bounds
    ensures { result ≡ bounds_of parts.now }
{
    let none = Bounds {
        west: i32::MAX,
        east: i32::MIN,
        south: i32::MAX,
        north: i32::MIN,
    };
    let nodes = widen_by_nodes(none, parts.connected.as_slice());
    let edges = widen_by_edges(nodes, parts.edges.as_slice());
    widen_by_all_isolated(edges, parts.isolated.as_slice())
}

/// How far two numbers lie apart.
#[tactic(auto, unfolding(crate::specs::Frames::distance))]
fn apart(a: i32, b: i32) -> u64
    ensures value { result ≡ distance a b }
    ensures small { result < 2 ^ 32 }
{
    u64::from(a.abs_diff(b))
}

#[tactic(auto, unfolding(crate::specs::Frames::width_at))]
fn width(middle: u64) -> u64
    requires { middle ≤ 21475 }
    ensures value { result ≡ width_at middle }
    ensures small { result ≤ 1000 }
{
    let square = middle * middle;
    1000 * 324_000_000u64.saturating_sub(4 * square) / (324_000_000 + square)
}

#[tactic(auto, unfolding(crate::specs::Frames::middle_of))]
fn middle(b: Bounds) -> u64
    ensures value { result ≡ middle_of b }
    ensures small { result ≤ 21475 }
{
    (i64::from(b.south) + i64::from(b.north)).unsigned_abs() / 200_000
}

fn longer(a: u64, b: u64) -> u64
    ensures { result ≡ max a b }
{
    if a < b { b } else { a }
}

/// A millimetre on paper in units.
#[tactic(auto, unfolding(crate::specs::Frames::mm_of))]
fn mm(cscl: u32, longest: u64) -> u64
    requires some { 1 ≤ longest }
    requires small { longest ≤ 2 ^ 33 }
    ensures value { result ≡ mm_of cscl longest }
    ensures least { 10 ≤ result }
    ensures most { result ≤ 200 }
{
    let exact = u64::from(cscl) * 100_000_000 / (111_120 * longest);
    if exact < 10 {
        return 10;
    }
    if exact > 200 { 200 } else { exact }
}

/// The frame of these bounds, from how far they reach across and up.
#[tactic(auto, unfolding(crate::specs::Frames::frame_by))]
fn frame_over(b: Bounds, width: u64, across: u64, up: u64, cscl: u32) -> Frame
    requires width { width ≤ 1000 }
    requires across { across < 2 ^ 32 }
    requires up { up < 2 ^ 32 }
    ensures value { result ≡ frame_by b width across up cscl }
    ensures frame { IsFrame result }
{
    let longest = longer(longer(across, up), 1);
    let mm = mm(cscl, longest);
    Frame {
        west: b.west,
        east: b.east,
        south: b.south,
        north: b.north,
        width,
        longest,
        across: across * 10_000 / longest,
        up: up * 10_000 / longest,
        mm,
        metres: across * 11_112 / 1_000_000,
    }
}

/// The frame of a chart.
#[tactic(auto, unfolding(crate::specs::Frames::frame_of))]
pub(crate) fn frame_for(parts: &Parts) -> Frame
    ensures value { result ≡ frame_of parts.now }
    ensures frame { IsFrame result }
{
    let b = bounds(parts);
    let width = width(middle(b));
    let across = apart(b.east, b.west) * width / 1000;
    let up = apart(b.north, b.south);
    frame_over(b, width, across, up, parts.header.cscl)
}

/// How many units a longitude lies east of the west.
#[tactic(auto, unfolding(crate::specs::Frames::right_of))]
pub(crate) fn right(f: Frame, x: i32) -> u64
    requires { IsFrame f }
    ensures value { result ≡ right_of f x }
    ensures small { result < 2 ^ 50 }
{
    apart(x, f.west) * f.width * 10 / f.longest
}

/// How many units a latitude lies south of the north.
#[tactic(auto, unfolding(crate::specs::Frames::down_of))]
pub(crate) fn down(f: Frame, y: i32) -> u64
    requires { IsFrame f }
    ensures value { result ≡ down_of f y }
    ensures small { result < 2 ^ 50 }
{
    apart(f.north, y) * 10_000 / f.longest
}
