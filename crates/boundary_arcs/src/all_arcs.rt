// All edges of a chart. Access to them stands in `access`.
ghost use Rattle.boundary_arcs.specs.Edges.{AreArcs};

use crate::Arc;
use plane_geom::Point;

/// The edges of a chart and the nodes where they begin and end, over faces numbered from 0.
///
/// Each edge has at least two points and two different sides. It passes no point twice, but its last point may be its
/// first, and no point between its ends is a point of another edge. Taken with any face on the right, as many edges begin
/// as end at each node, and at each node one begins or ends. Together they have at most 2^28 points, and there are at
/// most as many nodes.
#[derive(Drop)]
pub struct Arcs {
    pub(crate) nodes: Vec<Point>,
    pub(crate) arcs: Vec<Arc>,
    pub(crate) faces: u32,
    pub ghost agree: { AreArcs nodes.items arcs.items faces },
}
