// What a pass over a grid works on. Its methods stand in `sliding`, `growing` and `picking`.
ghost use Rattle.std.specs.Prelude.{◌≡◌, ◌*◌, length};

use crate::discs::Discs;
use crate::picks::Pick;
use circular_buffer::HeapCircularBuffer;

// The values of a grid's nodes, row by row, and what is wanted of those in a node's disc.
#[derive(Clone, Copy)]
pub(crate) struct Pass<'v> {
    pub discs: Discs,
    pub pick: Pick,
    pub values: &'v [Option<i32>],
    pub ghost full: { length values.now ≡ discs.rows * discs.cols },
}

// The window of rows that slides down the grid: the keys of the rows before `next`, as many rows
// as a disc is high.
//
// Each row's keys are found once, and serve all rows whose discs reach it.
#[derive(Drop)]
pub(crate) struct Window {
    pub rows: HeapCircularBuffer<Vec<i32>>,
    pub next: usize,
}

// The cores of the discs of a row's nodes, and the least key in each.
//
// A core has so many rows of its disc north of the node and so many south; in each of them, the
// nodes that stay in the disc when they go `reserve` columns outwards. With no reserve and all
// rows it is the disc.
#[derive(Drop)]
pub(crate) struct Cores {
    pub row: usize,
    pub north: usize,
    pub south: usize,
    pub reserve: usize,
    pub least: Vec<i32>,
    pub spare: Vec<i32>,
}
