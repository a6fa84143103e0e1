// The tables that faces and needs are made from: bands of nodes, pieces, and counts of sub-segments. What fills and reads
// them stands in `band_table`, `piece_table`, `joins` and `tally`.
use depth_rounding::Levels;
use mesh_definitions::{Class, Rect, Tri};
use shoal_buffer::Charted;
use tri_mesh::Blocks;

// The bands of the nodes of a rectangle of cells, row by row; none where a node has no data.
#[derive(Drop)]
pub(crate) struct BandTable<'a, 'g> {
    pub ch: &'a Charted<'g>,
    pub levels: &'a Levels,
    pub rect: Rect,
    pub bands: Vec<Option<u8>>,
}

// The least and the greatest band of a triangle.
#[derive(Clone, Copy)]
pub(crate) struct Ends {
    pub least: u32,
    pub greatest: u32,
}

// The pieces of the triangles of a rectangle of cells by number, triangle by triangle: row by row, in a cell the upper one
// first. There are the first item of each triangle and how many pieces it has, and for each item the number of the triangle
// that it was made for. Triangles side by side in a row share one item, where each has one piece and these are of one kind.
#[derive(Drop)]
pub(crate) struct Items {
    pub starts: Vec<u32>,
    pub counts: Vec<u8>,
    pub owners: Vec<u32>,
}

// How many pieces a triangle has, and the class and the block of the first of them.
#[derive(Clone, Copy)]
pub(crate) struct Look {
    pub count: u32,
    pub class: Class,
    pub block: u32,
}

// What finds the items of a triangle: its first one, and its least band, 0 where it is unsurveyed.
#[derive(Clone, Copy)]
pub(crate) struct Seat {
    pub tri: Tri,
    pub start: u32,
    pub first: u32,
    pub surveyed: bool,
}

// The pieces of a rectangle of cells as items. Where no blocks are given, all cells are of one.
#[derive(Drop)]
pub(crate) struct PieceTable<'a, 'g> {
    pub nodes: BandTable<'a, 'g>,
    pub blocks: Option<&'a Blocks>,
    pub items: Items,
}

// For each face, how many sub-segments have it on one side alone; and how many have nothing on a side.
#[derive(Drop)]
pub(crate) struct Tally {
    pub counts: Vec<u32>,
    pub outline: u32,
}
