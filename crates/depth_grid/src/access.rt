// What a grid tells.
ghost use Rattle.std.specs.Prelude.{◌≡◌, ◌*◌, ◌<◌, length};
ghost use Rattle.depth_grid.specs.Grid.{ArePlaces, Rises, Falls, AreDepths, place, depth_at};
ghost use Rattle.depth_grid.specs.Views.{grid_view};

use crate::{Grid, NodeId};

impl Grid {
    /// A grid of these columns, rows and depths. It takes no memory.
    pub fn new(xs: Vec<i32>, ys: Vec<i32>, depths: Vec<Option<i32>>) -> Grid
        requires columns { ArePlaces xs.items 1800000000 }
        requires rows { ArePlaces ys.items 900000000 }
        requires eastwards { Rises xs.items }
        requires southwards { Falls ys.items }
        requires full { length depths.items ≡ length ys.items * length xs.items }
        requires limited { AreDepths depths.items }
        ensures xs { (grid_view result).xs ≡ xs.items }
        ensures ys { (grid_view result).ys ≡ ys.items }
        ensures depths { (grid_view result).depths ≡ depths.items }
    {
        Grid { xs, ys, depths }
    }

    /// How many rows it has.
    pub fn rows(&self) -> usize
        ensures { result ≡ length (grid_view self.now).ys }
    {
        self.ys.len()
    }

    /// How many columns it has.
    pub fn cols(&self) -> usize
        ensures { result ≡ length (grid_view self.now).xs }
    {
        self.xs.len()
    }

    /// A column's longitude in ten-millionths of a degree.
    pub fn x(&self, col: usize) -> i32
        requires { col < length (grid_view self.now).xs }
        ensures { result ≡ place (grid_view self.now).xs col }
    {
        self.xs[col]
    }

    /// A row's latitude in ten-millionths of a degree.
    pub fn y(&self, row: usize) -> i32
        requires { row < length (grid_view self.now).ys }
        ensures { result ≡ place (grid_view self.now).ys row }
    {
        self.ys[row]
    }

    /// A node's depth in millimetres below datum, `None` exactly where it has no data.
    pub fn depth(&self, node: NodeId) -> Option<i32>
        requires row { node.row < length (grid_view self.now).ys }
        requires col { node.col < length (grid_view self.now).xs }
        ensures { result ≡ depth_at (grid_view self.now) node.row node.col }
    {
        self.depths[node.row * self.xs.len() + node.col]
    }

    /// The depths of all nodes, row by row from the north, in millimetres below datum.
    pub fn depths(&self) -> &[Option<i32>]
        ensures { result.now ≡ (grid_view self.now).depths }
    {
        self.depths.as_slice()
    }
}
