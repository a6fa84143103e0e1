// A chart made ready for the check: the segments of its areas and covers, each with its outline's place.
ghost use Rattle.cell_check.specs.Findings.{AreHeights, IsFinding};
ghost use Rattle.cell_check.specs.Outlines.{area_outlines, cover_outlines, lines};
ghost use Rattle.cell_check.specs.Tags.{tagged};
ghost use Rattle.cell_check.specs.Verdicts.{CrossedIn, WrongIn, NoStrip};
ghost use Rattle.chart_model.specs.declared.records.Parts.{Parts};
ghost use Rattle.plane_strips.specs.Strips.{IsStrip};
ghost use Rattle.std.specs.Prelude.{◌≡◌, ◌<◌, ◌≤◌, ◌+◌, ◌^◌, ◌++◌, IfOk, OnOk, IsTrue, length, map};

use crate::features::{has_length, is_coverage};
use crate::finding::Finding;
use crate::holders::Counts;
use crate::inside::Inside;
use crate::line::Line;
use crate::order::{Height, height_of};
use crate::plan::stretches;
use crate::row::{has_turned, has_wrong_gap, row_of};
use crate::sweep::{are_swept, rising_of, tops_of};
use chart_model::Chart;
use plane_geom::Seg;
use plane_strips::{lines_of_strips, rows_of_lines, sweeps_of_strips};
use std::alloc::{AllocError, Global};
use std::marker::Model;

/// The segments of a chart's areas, then those of its covers, each with its outline's place.
///
/// Clauses see it as the parts of its chart.
#[derive(Drop)]
pub(crate) struct Survey<'a> {
    chart: &'a Chart,
    areas: usize,
    covers: usize,
    lines: Vec<Line>,
}

impl<'a> Model for Survey<'a> {
    ghost Value = { Parts };

    ghost view = { λ s. s.chart.now };

    ghost invariant = { λ s. (s.areas ≡ length (area_outlines s.chart.now)) × (s.covers ≡ length (cover_outlines s.chart.now)) × (s.lines.items ≡ tagged 0 (area_outlines s.chart.now ++ cover_outlines s.chart.now)) × (s.areas < 2 ^ 32) };
}

fn append_owned(lines: &mut Vec<Line>, segments: &[Seg], owner: usize) -> Result<(), AllocError>
    ensures { OnOk result (lines.new.items ≡ lines.old.items ++ map (λ s. record { seg = s; owner = owner }) segments.now) }
{
    for segment in segments {
        lines.push(Line {
            seg: *segment,
            owner,
        })?;
    }
    Ok(())
}

/// Appends the segments of the areas, and answers how many areas there are.
fn append_areas(alloc: Global, chart: &Chart, lines: &mut Vec<Line>) -> Result<usize, AllocError>
    ensures count { IfOk result (λ n. n ≡ length (area_outlines chart.now)) }
    ensures few { IfOk result (λ n. n ≤ length chart.now.features) }
    ensures small { IfOk result (λ n. n < 2 ^ 32) }
    ensures lines { OnOk result (lines.new.items ≡ lines.old.items ++ tagged 0 (area_outlines chart.now)) }
{
    let features = chart.parts().features.as_slice();
    let mut owner = 0;
    for (place, feature) in features.iter().enumerate() {
        if feature.is_area() {
            let segments = chart.area_segments(alloc, place)?;
            append_owned(lines, &segments, owner)?;
            owner += 1;
        }
    }
    Ok(owner)
}

/// Appends the segments of the covers, whose places begin with `first`, and answers the place after the last one's.
fn append_covers(
    alloc: Global,
    chart: &Chart,
    first: usize,
    lines: &mut Vec<Line>,
) -> Result<usize, AllocError>
    requires { first ≤ length chart.now.features }
    ensures count { IfOk result (λ n. n ≡ first + length (cover_outlines chart.now)) }
    ensures lines { OnOk result (lines.new.items ≡ lines.old.items ++ tagged first (cover_outlines chart.now)) }
{
    let features = chart.parts().features.as_slice();
    let mut owner = first;
    for (place, feature) in features.iter().enumerate() {
        if is_coverage(feature) {
            let segments = chart.area_segments(alloc, place)?;
            append_owned(lines, &segments, owner)?;
            owner += 1;
        }
    }
    Ok(owner)
}

impl<'a> Survey<'a> {
    /// Collects the segments of the chart's areas and covers. Refuses only for want of memory.
    pub fn new(alloc: Global, chart: &'a Chart) -> Result<Survey<'a>, AllocError>
        ensures { IfOk result (λ s. s ≡ chart.now) }
    {
        let mut lines = Vec::new(alloc);
        let areas = append_areas(alloc, chart, &mut lines)?;
        let all = append_covers(alloc, chart, areas, &mut lines)?;
        Ok(Survey {
            chart,
            areas,
            covers: all - areas,
            lines,
        })
    }

    /// How many areas there are.
    pub fn areas(&self) -> usize
        ensures value { result ≡ length (area_outlines self.now) }
        ensures small { result < 2 ^ 32 }
    {
        self.areas
    }

    /// The heights of the ends of lines, from south to north.
    pub fn heights(&self, alloc: Global) -> Result<Vec<Height>, AllocError>
        ensures { IfOk result (λ v. AreHeights (lines self.now) v.items) }
    {
        let mut heights = Vec::new(alloc);
        for line in &self.lines {
            if has_length(line.seg) {
                heights.push(height_of(line.seg.a))?;
                heights.push(height_of(line.seg.b))?;
            }
        }
        heights.sort_unstable_by_key(|height| height.y);
        Ok(heights)
    }

    /// Whether a walk from strip to strip finds no strip crossed and none with a wrong point. `false` says nothing.
    pub fn is_swept(&self, alloc: Global, heights: &[Height]) -> Result<bool, AllocError>
        requires { AreHeights (lines self.now) heights.now }
        ensures { IfOk result (λ b. IsTrue b → NoStrip (lines self.now) (CrossedIn self.now) × NoStrip (lines self.now) (WrongIn self.now)) }
    {
        lines_of_strips();
        rows_of_lines();
        sweeps_of_strips();
        let count = Counts {
            areas: self.areas,
            covers: self.covers,
        };
        let rising = rising_of(alloc, &self.lines)?;
        let stretches = stretches(alloc, &rising)?;
        let tops = tops_of(alloc, &rising)?;
        are_swept(alloc, &rising, &tops, &stretches, heights, count)
    }

    /// What the strip between two neighbouring heights shows.
    pub fn look_at(&self, alloc: Global, lo: Height, hi: Height) -> Result<Finding, AllocError>
        requires { IsStrip (lines self.now) lo.y hi.y }
        ensures { IfOk result (IsFinding self.now lo.y hi.y) }
    {
        lines_of_strips();
        rows_of_lines();
        sweeps_of_strips();
        let row = row_of(alloc, &self.lines, lo, hi)?;
        if has_turned(&row, hi) {
            return Ok(Finding::Crosses);
        }
        let mut inside = Inside::none(alloc, self.areas, self.covers)?;
        if has_wrong_gap(&row, &mut inside) {
            Ok(Finding::Misfits)
        } else {
            Ok(Finding::Fine)
        }
    }
}
