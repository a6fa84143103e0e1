// Drawn sub-segments, and lines between numbered points.
use chains::Line;
use indexmap::IndexSet;
use plane_geom::{Point, Seg};

// A drawn sub-segment: where it lies, and the numbers of the faces on its sides, none beyond the border.
#[derive(Clone, Copy)]
pub(crate) struct Drawn {
    pub seg: Seg,
    pub left: Option<u32>,
    pub right: Option<u32>,
}

// Lines between points that are numbered in the order in which they were met.
#[derive(Drop)]
pub(crate) struct Net {
    pub points: IndexSet<Point>,
    pub lines: Vec<Line>,
}
