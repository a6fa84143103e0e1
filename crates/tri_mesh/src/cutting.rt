// Making, cutting and asking blocks.
ghost use Rattle.std.specs.Prelude.{◌≡◌, ◌⊎◌, ◌↔◌, ℕ, ◌+◌, ◌-◌, ◌*◌, ◌^◌, ◌<◌, ◌≤◌, ◌++◌, [], ◌∷◌, length, slice_set, IfOk, OnOk, OnErr, IsTrue};
ghost use Rattle.mesh_definitions.specs.Blocks.{first_part, second_part};
ghost use Rattle.mesh_definitions.specs.Mesh.{has_cell};
ghost use Rattle.tri_mesh.specs.Cells.{all_of, cells, rect_of, block_in, Fills, Renumbers};
ghost use Rattle.tri_mesh.specs.Views.{blocks_view};

use crate::Blocks;
use mesh_definitions::Rect;
use std::alloc::{AllocError, Global};

// The two parts of a rectangle that is cut across its longer side, or between columns where its sides are equal.
fn halves(rect: Rect) -> (Rect, Rect)
    requires rows { rect.row + rect.rows ≤ 1024 }
    requires cols { rect.col + rect.cols ≤ 1024 }
    ensures first { result.0 ≡ first_part rect }
    ensures second { result.1 ≡ second_part rect }
{
    if rect.rows > rect.cols {
        let rows = rect.rows.div_ceil(2);
        (
            Rect {
                row: rect.row,
                col: rect.col,
                rows,
                cols: rect.cols,
            },
            Rect {
                row: rect.row + rows,
                col: rect.col,
                rows: rect.rows - rows,
                cols: rect.cols,
            },
        )
    } else {
        let cols = rect.cols.div_ceil(2);
        (
            Rect {
                row: rect.row,
                col: rect.col,
                rows: rect.rows,
                cols,
            },
            Rect {
                row: rect.row,
                col: rect.col + cols,
                rows: rect.rows,
                cols: rect.cols - cols,
            },
        )
    }
}

// Gives places from `start` on, below `end`, a number.
fn fill(numbers: &mut [u32], start: usize, end: usize, number: u32)
    requires ordered { start ≤ end }
    requires inside { end ≤ length numbers.old }
    ensures len { length numbers.new ≡ length numbers.old }
    ensures fills { Fills numbers.old start end number numbers.new }
{
    for at in start..end {
        numbers[at] = number;
    }
}

// Gives the cells of a rectangle a number.
fn renumber(numbers: &mut [u32], cols: usize, rect: Rect, number: u32)
    requires few { rect.row + rect.rows ≤ 1024 }
    requires narrow { cols ≤ 1024 }
    requires east { rect.col + rect.cols ≤ cols }
    requires south { (rect.row + rect.rows) * cols ≤ length numbers.old }
    ensures len { length numbers.new ≡ length numbers.old }
    ensures cells { Renumbers numbers.old cols rect number numbers.new }
{
    for row in rect.row..rect.row + rect.rows {
        let start = row * cols + rect.col;
        fill(numbers, start, start + rect.cols, number);
    }
}

impl Blocks {
    /// One block of all cells, for numbers of nodes from 2 to 1,025.
    pub fn whole(alloc: Global, rows: usize, cols: usize) -> Result<Blocks, AllocError>
        requires some_rows { 2 ≤ rows }
        requires few_rows { rows ≤ 1025 }
        requires some_cols { 2 ≤ cols }
        requires few_cols { cols ≤ 1025 }
        ensures all { IfOk result (λ b. all_of (blocks_view b) ≡ cells (rows - 1) (cols - 1)) }
        ensures one { IfOk result (λ b. (blocks_view b).rects ≡ cells (rows - 1) (cols - 1) ∷ []) }
    {
        let rect = Rect {
            row: 0,
            col: 0,
            rows: rows - 1,
            cols: cols - 1,
        };
        let rects = Vec::from_slice(alloc, &[rect])?;
        let numbers = vec![in alloc; 0; rect.rows * rect.cols]?;
        Ok(Blocks {
            rows: rect.rows,
            cols: rect.cols,
            rects,
            numbers,
        })
    }

    /// Cuts a block in two: across its longer side, or between columns where its sides are equal. The block is then the
    /// northern or western part, which has half of that side's cells, rounded up; the other part has the number that
    /// `count` had. A refusal changes nothing.
    pub fn halve(&mut self, block: u32) -> Result<(), AllocError>
        requires known { block < length (blocks_view self.old).rects }
        requires long { (2 ≤ (rect_of (blocks_view self.old) block).rows) ⊎ (2 ≤ (rect_of (blocks_view self.old) block).cols) }
        ensures all { all_of (blocks_view self.new) ≡ all_of (blocks_view self.old) }
        ensures cut { OnOk result ((blocks_view self.new).rects ≡ slice_set ((blocks_view self.old).rects ++ second_part (rect_of (blocks_view self.old) block) ∷ []) block (first_part (rect_of (blocks_view self.old) block))) }
        ensures unchanged { OnErr result (blocks_view self.new ≡ blocks_view self.old) }
    {
        let (first, second) = halves(self.rects[block as usize]);
        let number = self.rects.len() as u32;
        self.rects.push(second)?;
        self.rects[block as usize] = first;
        renumber(&mut self.numbers, self.cols, second, number);
        Ok(())
    }

    /// The rectangle of a block.
    pub fn rect(&self, block: u32) -> Rect
        requires { block < length (blocks_view self.now).rects }
        ensures { result ≡ rect_of (blocks_view self.now) block }
    {
        self.rects[block as usize]
    }

    /// The number of the block that has a cell.
    pub fn block_of(&self, row: usize, col: usize) -> u32
        requires row { row < (blocks_view self.now).rows }
        requires col { col < (blocks_view self.now).cols }
        ensures value { result ≡ block_in (blocks_view self.now) row col }
        ensures known { result < length (blocks_view self.now).rects }
        ensures has { (k : ℕ) → k < length (blocks_view self.now).rects → IsTrue (has_cell (rect_of (blocks_view self.now) k) row col) ↔ (result ≡ k) }
    {
        self.numbers[row * self.cols + col]
    }

    /// How many blocks there are, at most 2^20.
    pub fn count(&self) -> u32
        ensures value { result ≡ length (blocks_view self.now).rects }
        ensures few { result ≤ 2 ^ 20 }
    {
        self.rects.len() as u32
    }
}
