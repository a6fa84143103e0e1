// The grid itself. Its methods stand in `access`.
ghost use Rattle.std.specs.Prelude.{◌≡◌, ◌*◌, length};
ghost use Rattle.depth_grid.specs.Grid.{ArePlaces, Rises, Falls, AreDepths};

/// A finished grid of depths.
///
/// It has 2 to 1,025 columns and as many rows, at strictly rising x and strictly falling y, all
/// multiples of 32 in ten-millionths of a degree, within ±180 and ±90 degrees; and row by row
/// from the north a depth for each node in millimetres below datum, within ±12,000,000, or none.
#[derive(Drop)]
pub struct Grid {
    pub(crate) xs: Vec<i32>,
    pub(crate) ys: Vec<i32>,
    pub(crate) depths: Vec<Option<i32>>,
    pub ghost columns: { ArePlaces xs.items 1800000000 },
    pub ghost rows: { ArePlaces ys.items 900000000 },
    pub ghost eastwards: { Rises xs.items },
    pub ghost southwards: { Falls ys.items },
    pub ghost full: { length depths.items ≡ length ys.items * length xs.items },
    pub ghost limited: { AreDepths depths.items },
}
