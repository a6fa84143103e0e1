// One edge of a chart.
use chart_model::Items;
use plane_geom::Point;

/// What lies on a side of an edge: a face by its number, or what is outside the coverage.
#[derive(Clone, Copy, Debug, PartialEq, Eq)]
pub enum Side {
    Outside,
    Face(u32),
}

/// An edge: its points in order, the numbers of the nodes that it begins and ends at, and what lies on its sides.
#[derive(Drop)]
pub struct Arc {
    pub points: Items<Point>,
    pub begin: u32,
    pub end: u32,
    pub left: Side,
    pub right: Side,
}
