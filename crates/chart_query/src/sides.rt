// The segments of a chart's areas, each with the area that it belongs to.
ghost use Rattle.chart_query.specs.Sides.{high_of, is_on_side, low_of, side_of, sides_from};
ghost use Rattle.plane_geom.specs.Geom.{passes};
ghost use Rattle.std.specs.List.{list_any};
ghost use Rattle.std.specs.Prelude.{◌≡◌, ◌++◌, IfOk, map, OnOk};

use chart_model::Chart;
use plane_geom::{Point, Seg, inside_odd, on_segment};
use std::alloc::{AllocError, Global};

/// A segment of an area, and the position of the area's feature in the chart's list.
#[derive(Clone, Copy)]
pub(crate) struct Side {
    pub segment: Seg,
    pub feature: usize,
}

/// The height of a side's lower end.
pub(crate) fn low(side: Side) -> i32
    ensures { result ≡ low_of side }
{
    if side.segment.a.y <= side.segment.b.y {
        side.segment.a.y
    } else {
        side.segment.b.y
    }
}

/// The height of a side's higher end.
pub(crate) fn high(side: Side) -> i32
    ensures { result ≡ high_of side }
{
    if side.segment.a.y <= side.segment.b.y {
        side.segment.b.y
    } else {
        side.segment.a.y
    }
}

/// Whether p is on one of the sides, their ends included.
pub(crate) fn is_on_some(sides: &[Side], p: Point) -> bool
    ensures { result ≡ list_any (is_on_side p) sides.now }
{
    for side in sides {
        if on_segment(side.segment, p) {
            return true;
        }
    }
    false
}

/// Whether a segment passes p's height east of p.
pub(crate) fn passes_east(segment: Seg, p: Point) -> bool
    ensures { result ≡ passes segment p }
{
    inside_odd(&[segment], p)
}

fn append_sides(segments: &[Seg], feature: usize, sides: &mut Vec<Side>) -> Result<(), AllocError>
    ensures { OnOk result (sides.new.items ≡ sides.old.items ++ map (side_of feature) segments.now) }
{
    for segment in segments {
        sides.push(Side {
            segment: *segment,
            feature,
        })?;
    }
    Ok(())
}

/// The sides of all areas of group 1, area by area.
pub(crate) fn sides_of(alloc: Global, chart: &Chart) -> Result<Vec<Side>, AllocError>
    ensures { IfOk result (λ sides. sides.items ≡ sides_from chart.now 0 chart.now.features) }
{
    let features = chart.parts().features.as_slice();
    let mut sides = Vec::new(alloc);
    for (place, feature) in features.iter().enumerate() {
        if !feature.is_area() {
            continue;
        }
        let segments = chart.area_segments(alloc, place)?;
        append_sides(&segments, place, &mut sides)?;
    }
    Ok(sides)
}
