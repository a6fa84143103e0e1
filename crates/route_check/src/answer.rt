// The answer for a leg.

/// How a leg lies to the areas that are unsafe for a depth.
#[derive(Clone, Copy, Debug, PartialEq, Eq)]
pub enum Leg {
    /// No point of it is inside one or on the border of one.
    Clear,
    /// It meets no border of one, and its first point is inside the one at this place among the chart's features: the first
    /// such.
    Inside(usize),
    /// It has a point in common with a border: the place of the first such area among the chart's features, and the
    /// place of the first such segment among the area's.
    Touched(usize, usize),
}
