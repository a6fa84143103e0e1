// The check of a cell's tiling.
ghost use Rattle.cell_check.specs.Findings.{AreHeights};
ghost use Rattle.cell_check.specs.Outlines.{all_segments, lines};
ghost use Rattle.cell_check.specs.Verdicts.{IsCrossedAt, IsTiled, IsTiledBy, IsTooMany, IsVerdict, IsWrongAt};
ghost use Rattle.chart_model.specs.Tally.{IsMeasured};
ghost use Rattle.std.specs.Prelude.{◌≡◌, ◌≤◌, ◌<◌, ◌^◌, ◌↔◌, ℕ, ℤ, int_lt, Some, IfOk, length, unwrap_or};

use crate::Verdict;
use crate::features::count_segments;
use crate::finding::Finding;
use crate::order::Height;
use crate::survey::Survey;
use chart_model::Chart;
use plane_strips::tiled_points;
use std::alloc::{AllocError, Global};

/// The most segments that are checked.
const LIMIT: u64 = 1_000_000;

/// The first of two heights, where there is one.
fn first_of(first: Option<Height>, second: Height) -> Option<Height>
    ensures { result ≡ Some (unwrap_or first second) }
{
    match first {
        Some(height) => Some(height),
        None => Some(second),
    }
}

fn crossed_at(height: Height) -> Verdict
    ensures { result ≡ Verdict.Crossed height.y }
{
    Verdict::Crossed(height.y)
}

fn wrong_at(height: Height) -> Verdict
    ensures { result ≡ Verdict.Wrong height.y }
{
    Verdict::Wrong(height.y)
}

/// Whether a height lies above another.
fn lies_above(height: Height, lower: Height) -> bool
    ensures { result ≡ int_lt lower.y height.y }
{
    lower.y < height.y
}

/// The verdict of the strips between these heights.
fn judged(alloc: Global, survey: &Survey, heights: &[Height]) -> Result<Verdict, AllocError>
    requires heights { AreHeights (lines survey.now) heights.now }
    requires few { length (all_segments survey.now) ≤ 1000000 }
    ensures { IfOk result (IsVerdict survey.now) }
{
    let mut wrong = None;
    for i in 1..heights.len() {
        let lo = heights[i - 1];
        let hi = heights[i];
        if !lies_above(hi, lo) {
            continue;
        }
        match survey.look_at(alloc, lo, hi)? {
            Finding::Crosses => return Ok(crossed_at(lo)),
            Finding::Misfits => wrong = first_of(wrong, lo),
            Finding::Fine => {}
        }
    }
    match wrong {
        Some(height) => Ok(wrong_at(height)),
        None => Ok(Verdict::Tiles(survey.areas() as u32)),
    }
}

/// The verdict of a chart with few enough segments: that of a sweep, where it finds nothing amiss, else that of each strip
/// by itself.
fn decided(alloc: Global, survey: &Survey, heights: &[Height]) -> Result<Verdict, AllocError>
    requires heights { AreHeights (lines survey.now) heights.now }
    requires few { length (all_segments survey.now) ≤ 1000000 }
    ensures { IfOk result (IsVerdict survey.now) }
{
    if survey.is_swept(alloc, heights)? {
        return Ok(Verdict::Tiles(survey.areas() as u32));
    }
    judged(alloc, survey, heights)
}

/// Whether the areas of group 1 tile what the cell's covers cover, or the first cause why they don't. Refuses only for
/// want of memory.
pub fn check(alloc: Global, chart: &Chart) -> Result<Verdict, AllocError>
    requires { IsMeasured chart.now }
    ensures too_many { IfOk result (λ v. (n : ℕ) → (v ≡ Verdict.TooMany n) ↔ IsTooMany chart.now n) }
    ensures crossed { IfOk result (λ v. (y : ℤ) → (v ≡ Verdict.Crossed y) ↔ IsCrossedAt chart.now y) }
    ensures wrong { IfOk result (λ v. (y : ℤ) → (v ≡ Verdict.Wrong y) ↔ IsWrongAt chart.now y) }
    ensures tiles { IfOk result (λ v. (a : ℕ) → (v ≡ Verdict.Tiles a) ↔ IsTiledBy chart.now a) }
    ensures tiled { IfOk result (λ v. (a : ℕ) → v ≡ Verdict.Tiles a → IsTiled chart.now) }
{
    tiled_points();
    let count = count_segments(alloc, chart)?;
    if count > LIMIT {
        return Ok(Verdict::TooMany(count));
    }
    let survey = Survey::new(alloc, chart)?;
    let heights = survey.heights(alloc)?;
    decided(alloc, &survey, &heights)
}
