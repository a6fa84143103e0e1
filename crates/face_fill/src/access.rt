// Access to faces and their pieces.
ghost use Rattle.std.specs.Prelude.{◌≡◌, ◌^◌, ◌<◌, ◌≤◌, length};
ghost use Rattle.face_fill.specs.Numbered.{face_at, class_of, block_of, piece_count};
ghost use Rattle.face_fill.specs.Views.{faces_view};
ghost use Rattle.tri_mesh.specs.TriNumbers.{tri_place};

use crate::Faces;
use mesh_definitions::{Class, Rect, Tri};
use tri_mesh::tri_number;

// The number of a triangle among those of so many rows and columns of cells.
fn number_of(rows: usize, cols: usize, tri: Tri) -> usize
    requires few_rows { rows ≤ 1024 }
    requires few_cols { cols ≤ 1024 }
    requires row { tri.row < rows }
    requires col { tri.col < cols }
    ensures { result ≡ tri_place cols tri }
{
    let all = Rect {
        row: 0,
        col: 0,
        rows,
        cols,
    };
    tri_number(all, tri)
}

impl Faces {
    /// How many faces there are.
    pub fn count(&self) -> u32
        ensures value { result ≡ length (faces_view self.now).classes }
        ensures few { result ≤ 2 ^ 26 }
    {
        self.classes.len() as u32
    }

    /// How many pieces a triangle has.
    pub fn piece_count(&self, tri: Tri) -> u32
        requires row { tri.row < (faces_view self.now).rows }
        requires col { tri.col < (faces_view self.now).cols }
        ensures { result ≡ piece_count (faces_view self.now) tri }
    {
        let place = number_of(self.rows, self.cols, tri);
        u32::from(self.counts[place])
    }

    /// The face of a piece of a triangle; pieces count from 0 within the triangle, from the least band on.
    pub fn face_of(&self, tri: Tri, piece: u32) -> u32
        requires row { tri.row < (faces_view self.now).rows }
        requires col { tri.col < (faces_view self.now).cols }
        requires piece { piece < piece_count (faces_view self.now) tri }
        ensures value { result ≡ face_at (faces_view self.now) tri piece }
        ensures known { result < length (faces_view self.now).classes }
    {
        let place = number_of(self.rows, self.cols, tri);
        self.numbers[(self.starts[place] + piece) as usize]
    }

    /// The class of a face.
    pub fn class(&self, face: u32) -> Class
        requires { face < length (faces_view self.now).classes }
        ensures { result ≡ class_of (faces_view self.now) face }
    {
        self.classes[face as usize]
    }

    /// The number of the block that has a face.
    pub fn block(&self, face: u32) -> u32
        requires { face < length (faces_view self.now).classes }
        ensures { result ≡ block_of (faces_view self.now) face }
    {
        self.blocks[face as usize]
    }
}
