// A leg against the unsafe areas, one after the other.
ghost use Rattle.std.specs.Prelude.{◌≡◌, ◌↔◌, ◌<◌, IfOk, IfSome, IfNone, Some, None, ℕ, length, if◌then◌else◌};
ghost use Rattle.std.specs.Option.{option_or};
ghost use Rattle.plane_geom.specs.Geom.{odd_of};
ghost use Rattle.route_check.specs.Answer.{leg_of};
ghost use Rattle.route_check.specs.Laws.{IsJudged};
ghost use Rattle.route_check.specs.Legs.{IsFirstInside, IsFirstMet, IsMet, IsUntouched};
ghost use Rattle.route_check.specs.declared.answer.Leg.TheVariants.{Clear, Inside, Touched};

use crate::Leg;
use crate::areas::is_unsafe;
use crate::laws::judged_legs;
use chart_model::Chart;
use exact_num::Decimal;
use plane_geom::{Point, Seg, inside_odd};
use plane_strips::{meet, rational_points};
use std::alloc::{AllocError, Global};

/// The place of the first segment that has a rational point in common with the leg.
fn first_met(segments: &[Seg], leg: Seg) -> Option<usize>
    ensures some { IfSome result (λ k. IsMet segments.now leg k) }
    ensures first { IfSome result (λ k. (j : ℕ) → j < k → ¬ (IsMet segments.now leg j)) }
    ensures none { IfNone result ((j : ℕ) → ¬ (IsMet segments.now leg j)) }
{
    for (place, segment) in segments.iter().enumerate() {
        if meet(leg, *segment) {
            return Some(place);
        }
    }
    None
}

/// The area found before, or this one where there is none and an odd number of its segments passes east of the point.
fn first_around(found: Option<usize>, segments: &[Seg], p: Point, place: usize) -> Option<usize>
    ensures { result ≡ option_or found (if odd_of segments.now p then Some place else None) }
{
    if found.is_none() && inside_odd(segments, p) {
        return Some(place);
    }
    found
}

/// Goes through the features once, and through the segments of each unsafe area.
fn judge(alloc: Global, chart: &Chart, leg: Seg, safe: &Decimal) -> Result<Leg, AllocError>
    ensures { IfOk result (IsJudged chart.now safe.now leg) }
{
    judged_legs();
    rational_points();
    let features = chart.parts().features.as_slice();
    let mut inside = None;
    for (place, feature) in features.iter().enumerate() {
        if !is_unsafe(feature, safe) {
            continue;
        }
        let segments = chart.area_segments(alloc, place)?;
        if let Some(first) = first_met(&segments, leg) {
            return Ok(Leg::Touched(place, first));
        }
        inside = first_around(inside, &segments, leg.a, place);
    }
    match inside {
        Some(place) => Ok(Leg::Inside(place)),
        None => Ok(Leg::Clear),
    }
}

/// How the leg from one point to another lies to the areas of group 1 that are unsafe for a depth in metres: the first of
/// them, in the order of the chart's features, that has a segment with a point in common with the leg, and the first such
/// segment in the order of `Chart::area_segments`; else the first that has the leg's first point inside; else that the leg
/// is clear.
///
/// An area is unsafe where it is no depth area (DEPARE), where it has no DRVAL1, or where the text of its first DRVAL1 is
/// no number or one that is less than the depth. All points of the leg count, its ends and those between whole units
/// too. The two points may be equal. Points in no area of group 1, soundings and other features aren't judged. Refuses only
/// for want of memory.
pub fn leg(
    alloc: Global,
    chart: &Chart,
    from: Point,
    to: Point,
    safe: &Decimal,
) -> Result<Leg, AllocError>
    ensures touched { IfOk result (λ l. (f k : ℕ) → (l ≡ Touched f k) ↔ IsFirstMet chart.now safe.now (record { a = from; b = to }) f k) }
    ensures inside { IfOk result (λ l. (f : ℕ) → (l ≡ Inside f) ↔ IsFirstInside chart.now safe.now (record { a = from; b = to }) f) }
    // no rational point of the leg is on a segment of an unsafe area or inside one
    ensures clear { IfOk result (λ l. (l ≡ Clear) ↔ IsUntouched chart.now safe.now (record { a = from; b = to })) }
    // the same, computed
    ensures computed { IfOk result (λ l. l ≡ leg_of chart.now safe.now (record { a = from; b = to })) }
{
    judge(alloc, chart, Seg { a: from, b: to }, safe)
}
