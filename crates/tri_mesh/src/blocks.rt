// Blocks of cells. What is done with them stands in `cutting`.
ghost use Rattle.tri_mesh.specs.Cells.{AreBlocks, view_of};

use mesh_definitions::Rect;

/// Blocks: rectangles of cells that have no cell in common and together have all cells, numbered from 0.
///
/// There are at most 1,024 rows and columns of cells, and at most as many blocks as cells.
#[derive(Drop)]
pub struct Blocks {
    pub(crate) rows: usize,
    pub(crate) cols: usize,
    pub(crate) rects: Vec<Rect>,
    pub(crate) numbers: Vec<u32>,
    pub ghost agree: { AreBlocks (view_of rows cols rects.items numbers.items) },
}
