//! The definitions that the chart's promises are made of: the mesh of a generalised grid, its pieces and faces, blocks,
//! drawn lines, edges, rings, the ground at a point and ranges of depth. Pieces, sub-segments and steps have names, and
//! definitions and laws speak of the names, not of points.
#![tactic(auto)]

ghost use Rattle.mesh_definitions.specs.Laws.{WalksBothWays, SamePiece, CountsOverPieces, CountsTheOutline, AreaOverPieces};

use plane_laws::boundary_sums;

/// What lies in one piece of the mesh: no survey, or the band of depths between two levels.
#[derive(Clone, Copy, Debug, PartialEq, Eq)]
pub enum Class {
    Unsurveyed,
    Band(u32),
}

/// A rectangle of cells: so many rows and columns of them from cell (`row`, `col`) on, south and east.
///
/// Cell (i, j) lies between the nodes (i, j) and (i + 1, j + 1).
#[derive(Clone, Copy, Debug, PartialEq, Eq)]
pub struct Rect {
    pub row: usize,
    pub col: usize,
    pub rows: usize,
    pub cols: usize,
}

/// A triangle of cell (`row`, `col`): the upper one has the north-west node, the lower one the south-east node.
#[derive(Clone, Copy, Debug, PartialEq, Eq)]
pub struct Tri {
    pub row: usize,
    pub col: usize,
    pub upper: bool,
}

/// The way of a link: east or south from its node, or slanting from south-west to north-east.
#[derive(Clone, Copy)]
pub enum Way {
    Across,
    Down,
    Slant,
}

/// An edge of the mesh by name: east or south from node (`row`, `col`), or through cell (`row`, `col`) from its
/// south-west to its north-east node.
#[derive(Clone, Copy)]
pub struct Link {
    pub way: Way,
    pub row: usize,
    pub col: usize,
}

/// A piece of a triangle, by its band. An unsurveyed triangle is one piece, by 0.
#[derive(Clone, Copy)]
pub struct Piece {
    pub tri: Tri,
    pub band: u32,
}

/// A sub-segment: the part of a link in one band (0 where an end has no data), or the chord of a level in a triangle.
#[derive(Clone, Copy)]
pub enum Sub {
    Part(Link, u32),
    Chord(Tri, u32),
}

/// A sub-segment, walked in its own direction or back. A link leads from its first node to its second, a chord has the
/// deep side on the right.
#[derive(Clone, Copy)]
pub struct Step {
    pub sub: Sub,
    pub forward: bool,
}

/// In any mesh a sub-segment that is walked back twice is as at first, and walked back it lies the other way round; and
/// the test whether two pieces are the same is exact. So the laws of the plane on boundaries hold of meshes.
pub fn mesh_borders()
    ensures both_ways { WalksBothWays }
    ensures same_piece { SamePiece }
{}

/// Signed counts and areas of the boundaries of sets of pieces are the sums of those of the pieces' own outlines.
pub fn mesh_counts()
    ensures counts { CountsOverPieces }
    ensures outline { CountsTheOutline }
    ensures area { AreaOverPieces }
{
    boundary_sums::<Step, Piece>();
    mesh_borders();
}
