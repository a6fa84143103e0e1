// One point looked up in one pass over a chart's areas.
ghost use Rattle.chart_query.specs.Answer.{is_on, place_of};
ghost use Rattle.chart_query.specs.Place.{IsPlace};
ghost use Rattle.std.specs.List.{list_any};
ghost use Rattle.std.specs.Prelude.{◌≡◌, IfOk};

use crate::Place;
use crate::areas::off_edges;
use chart_model::Chart;
use plane_geom::{Point, Seg, inside_odd, on_segment};
use std::alloc::{AllocError, Global};

fn is_on_any(segments: &[Seg], p: Point) -> bool
    ensures { result ≡ list_any (is_on p) segments.now }
{
    for segment in segments {
        if on_segment(*segment, p) {
            return true;
        }
    }
    false
}

/// Where p lies among the chart's areas of group 1, as `Locator::at` answers it, without tables: one pass over the areas
/// and their segments. For many points a `Locator` is faster.
pub fn place_at(alloc: Global, chart: &Chart, p: Point) -> Result<Place, AllocError>
    ensures place { IfOk result (IsPlace chart.now p) }
    // the same, computed
    ensures computed { IfOk result (λ place. place ≡ place_of chart.now p) }
{
    let features = chart.parts().features.as_slice();
    let mut found = Vec::new(alloc);
    for (place, feature) in features.iter().enumerate() {
        if !feature.is_area() {
            continue;
        }
        let segments = chart.area_segments(alloc, place)?;
        if is_on_any(&segments, p) {
            return Ok(Place::Edge);
        }
        if inside_odd(&segments, p) {
            found.push(place)?;
        }
    }
    Ok(off_edges(found))
}
