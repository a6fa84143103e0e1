// The steps of rounding. What is done with them stands in `rounding`.
ghost use Rattle.std.specs.Prelude.{◌+◌, ◌≤◌, take};
ghost use Rattle.depth_rounding.specs.Steps.{AreSteps};

/// The steps to which depths are rounded, in decimetres.
///
/// There are up to eight depths within ±120,000 decimetres, strictly rising, at which a further
/// step begins, and one step more: each 1, 2, 5, 10, 20, 50 or 100, and each beginning a multiple
/// of the step that begins there.
#[derive(Clone, Copy)]
pub struct Bands {
    pub(crate) step_from: [i32; 8],
    pub(crate) steps: [i32; 9],
    pub(crate) count: usize,
    pub ghost few: { count ≤ 8 },
    pub ghost are_steps: { AreSteps (take count step_from) (take (count + 1) steps) },
}
