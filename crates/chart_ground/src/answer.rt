// What may lie at a point.

/// What lies at a point by the rules of a chart.
#[derive(Clone, Copy, Debug, PartialEq, Eq)]
pub enum GroundAt {
    /// Nothing: the point is outside the closed rectangle of the outermost nodes.
    Outside,
    /// A drawn link of the mesh, or the chord of a contour.
    Edge,
    /// Ground whose depths lie between these two, in decimetres below datum: DRVAL1 and DRVAL2 of IHO S-57, Appendix A.
    Depth { shoaler: i32, deeper: i32 },
    /// Ground that has no depths.
    Unsurveyed,
}
