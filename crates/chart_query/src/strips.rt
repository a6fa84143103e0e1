// The strips between the heights of the sides' ends.
ghost use Rattle.chart_query.specs.Strips.{AreHeights, HasEnds, strip};
ghost use Rattle.std.specs.Int.{w32};
ghost use Rattle.std.specs.List.Sorted.{IsSorted};
ghost use Rattle.std.specs.Ordering.{int_cmp};
ghost use Rattle.std.specs.Prelude.{◌≡◌, All, FitsSigned, IfOk};

use crate::sides::Side;
use std::alloc::{AllocError, Global};

/// The heights of the ends of some sides, as they come.
fn ends_of(alloc: Global, sides: &[Side]) -> Result<Vec<i32>, AllocError>
    ensures ends { IfOk result (λ heights. All (HasEnds heights.items) sides.now) }
    ensures fit { IfOk result (λ heights. All (FitsSigned w32) heights.items) }
{
    let mut heights = Vec::with_capacity(alloc, sides.len() * 2)?;
    for side in sides {
        heights.push(side.segment.a.y)?;
        heights.push(side.segment.b.y)?;
    }
    Ok(heights)
}

/// The heights of the ends of some sides, each once, rising.
pub(crate) fn heights_of(alloc: Global, sides: &[Side]) -> Result<Vec<i32>, AllocError>
    ensures { IfOk result (λ heights. AreHeights sides.now heights.items) }
{
    let mut heights = ends_of(alloc, sides)?;
    heights.sort_unstable();
    heights.dedup();
    Ok(heights)
}

/// The number of the strip that a height is in: how many of the heights are not above it.
pub(crate) fn strip_of(heights: &[i32], y: i32) -> usize
    requires { IsSorted int_cmp heights.now }
    ensures { result ≡ strip heights.now y }
{
    heights.partition_point(|height| *height <= y)
}
