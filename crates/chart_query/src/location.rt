// A chart made ready for looking many points up.
ghost use Rattle.chart_model.specs.declared.records.Parts.{Parts};
ghost use Rattle.chart_query.specs.Answer.{place_of};
ghost use Rattle.chart_query.specs.Place.{IsPlace};
ghost use Rattle.chart_query.specs.Ready.{entries_of, IsReady};
ghost use Rattle.chart_query.specs.Split.{IsSplit};
ghost use Rattle.chart_query.specs.Strips.{AreHeights};
ghost use Rattle.std.specs.Prelude.{◌≡◌, ◌+◌, ◌*◌, ◌≤◌, IfOk, length};

use crate::Place;
use crate::areas::off_edges;
use crate::buckets::Buckets;
use crate::owners::toggle_passing;
use crate::sides::{Side, high, is_on_some, low, sides_of};
use crate::split::{Entry, Split, append_entries, split_of};
use crate::strips::{heights_of, strip_of};
use chart_model::Chart;
use plane_geom::Point;
use std::alloc::{AllocError, Global};
use std::marker::Model;

/// A chart made ready for looking up many points: the segments of its group 1 areas stand by the strips that they cross,
/// between the heights of their ends, and by the height of their higher end.
///
/// Clauses see it as the parts of its chart.
#[derive(Drop)]
pub struct Locator<'a> {
    chart: &'a Chart,
    heights: Vec<i32>,
    split: Split,
    buckets: Buckets,
}

impl<'a> Model for Locator<'a> {
    ghost Value = { Parts };

    ghost view = { λ s. s.chart.now };

    ghost invariant = { λ s. IsReady s.chart.now s.heights.items s.split.bases.items s.split.heights s.buckets.ends.items s.buckets.sides.items };
}

/// The entries of all sides.
fn entries_in(
    alloc: Global,
    sides: &[Side],
    heights: &[i32],
    split: &Split,
) -> Result<Vec<Entry>, AllocError>
    requires heights { AreHeights sides.now heights.now }
    requires split { IsSplit split.now.bases.items 1 (length heights.now) split.now.heights }
    requires small { split.now.heights ≤ 1 + 3 * length heights.now }
    ensures { IfOk result (λ entries. entries.items ≡ entries_of heights.now split.now.bases.items split.now.heights sides.now) }
{
    let mut entries = Vec::with_capacity(alloc, sides.len())?;
    for side in sides {
        let from = strip_of(heights, low(*side));
        let to = strip_of(heights, high(*side));
        append_entries(split, from, to, *side, &mut entries)?;
    }
    Ok(entries)
}

impl<'a> Locator<'a> {
    /// Sorts the segments of the chart's areas by strips. Refuses only for want of memory.
    pub fn new(alloc: Global, chart: &'a Chart) -> Result<Locator<'a>, AllocError>
        ensures { IfOk result (λ l. l ≡ chart.now) }
    {
        let sides = sides_of(alloc, chart)?;
        let heights = heights_of(alloc, &sides)?;
        let split = split_of(alloc, heights.len())?;
        let entries = entries_in(alloc, &sides, &heights, &split)?;
        let buckets = Buckets::of(alloc, &entries, split.heights + heights.len() + 1)?;
        Ok(Locator {
            chart,
            heights,
            split,
            buckets,
        })
    }

    /// Where p lies among the areas of group 1: on a segment of one, inside some, or neither. It takes memory for the
    /// positions alone.
    pub fn at(&self, alloc: Global, p: Point) -> Result<Place, AllocError>
        ensures place { IfOk result (IsPlace self.now p) }
        // the same, computed
        ensures computed { IfOk result (λ place. place ≡ place_of self.now p) }
    {
        let strip = strip_of(&self.heights, p.y);
        // Where p is at the height that begins its strip: level sides, and upper ends, which stand in no strip above.
        if is_on_some(self.buckets.bucket(self.split.heights + strip), p) {
            return Ok(Place::Edge);
        }
        let mut inside = Vec::new(alloc);
        let mut node = strip;
        for base in &self.split.bases {
            let sides = self.buckets.bucket(*base + node);
            if is_on_some(sides, p) {
                return Ok(Place::Edge);
            }
            toggle_passing(sides, p, &mut inside)?;
            node /= 2;
        }
        Ok(off_edges(inside))
    }
}
