// The points of a chart's edges as texts.
use chart_model::{Chart, Edge};
use plane_geom::Point;
use std::alloc::{AllocError, Global};

// The place of the edge of a number in their list.
fn place_of(edges: &[Edge], number: u32) -> Option<usize> {
    edges.iter().position(|edge| edge.rcid == number)
}

// `X Y, X Y ..`, in ten-millionths of a degree.
fn points_text(alloc: Global, points: &[Point]) -> Result<String, AllocError> {
    let mut all = String::new(alloc);
    for point in points {
        let comma = if all.is_empty() { "" } else { ", " };
        let text = format!(in alloc; "{comma}{} {}", point.x, point.y)?;
        all.push_str(text.as_str())?;
    }
    Ok(all)
}

/// The points of the edge of a number, from the end from which their text comes first.
pub fn edge_text(alloc: Global, chart: &Chart, number: u32) -> Result<String, AllocError> {
    let edges = chart.parts().edges.as_slice();
    let place = place_of(edges, number).unwrap_or(edges.len());
    if place >= edges.len() {
        return String::from_str(alloc, "no edge");
    }
    let mut points = chart.edge_points(alloc, place)?;
    let there = points_text(alloc, &points)?;
    points.reverse();
    let back = points_text(alloc, &points)?;
    Ok(if back.as_str() < there.as_str() {
        back
    } else {
        there
    })
}
