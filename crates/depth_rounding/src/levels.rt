// The levels of contours. What is done with them stands in `ranges`.
ghost use Rattle.std.specs.Prelude.{◌≤◌, take};
ghost use Rattle.depth_rounding.specs.Bands.{AreLevels};

/// Up to 20 levels of contours in decimetres below datum, strictly rising, within ±119,999.
#[derive(Clone, Copy)]
pub struct Levels {
    pub(crate) list: [i32; 20],
    pub(crate) count: usize,
    pub ghost few: { count ≤ 20 },
    pub ghost are_levels: { AreLevels (take count list) },
}
