// What the calls of the mesh take and answer.
use depth_grid::NodeId;
use mesh_definitions::Class;

/// An edge of the mesh by its two nodes, in either order.
#[derive(Clone, Copy)]
pub struct MeshEdge {
    pub a: NodeId,
    pub b: NodeId,
}

/// The pieces of a triangle: piece i, counted from 0, has the band `first` + i. An unsurveyed triangle is one piece.
#[derive(Clone, Copy, Debug, PartialEq, Eq)]
pub struct Pieces {
    pub surveyed: bool,
    pub first: u32,
    pub count: u32,
}

/// The parts that levels cut a link into: part i, counted from 0, has the band `first` + i.
#[derive(Clone, Copy, Debug, PartialEq, Eq)]
pub struct LinkParts {
    pub first: u32,
    pub count: u32,
}

/// What lies at a point: nothing outside the coverage, a drawn line, or the class of the piece that has it.
#[derive(Clone, Copy, Debug, PartialEq, Eq)]
pub enum Ground {
    Outside,
    Line,
    Inside(Class),
}
