// The walk over all strips from south to north, from one row to the next.
ghost use Rattle.cell_check.specs.Joints.{entry_before, line_of, IsJointAt, IsSound};
ghost use Rattle.cell_check.specs.Orders.{is_before};
ghost use Rattle.cell_check.specs.declared.order.Height.{Height};
ghost use Rattle.cell_check.specs.Owners.{nothing};
ghost use Rattle.cell_check.specs.Sweeps.{begin_of, goes_above, BeginInOrder, HaveNotBegun, HaveSameAbove, IsSweep, IsSwept, Ascend, AreSwept, does_rise, top_of, HaveBegun};
ghost use Rattle.plane_strips.specs.Strips.{upward};
ghost use Rattle.std.specs.Ordering.{int_eq, is_lt};
ghost use Rattle.std.specs.Prelude.{◌≡◌, ◌≤◌, ◌+◌, ◌++◌, ◌∷◌, [], ℕ, ℤ, int_le, int_lt, not, ◌<◌, ◌<ℤ◌, IfOk, OnOk, IsTrue, IsPermutation, drop, filter, length, map, slice_get, slice_index_or, slice_range, take};

use crate::entry::{Entry, is_joint};
use crate::holders::{Counts, Holders};
use crate::line::Line;
use crate::order::{Height, compare, from_below, height_of};
use crate::plan::Stretch;
use plane_geom::{Point, Seg, cross};
use std::alloc::{AllocError, Global};

/// Whether a segment goes on above a height.
fn goes_on(s: Seg, h: Height) -> bool
    ensures { result ≡ int_lt h.y (upward s).b.y }
{
    h.y < from_below(s).b.y
}

/// Whether a segment begins at a height or below it.
fn has_begun(s: Seg, h: Height) -> bool
    ensures { result ≡ int_le (upward s).a.y h.y }
{
    from_below(s).a.y <= h.y
}

fn lies_west_of(s: Seg, p: Point) -> bool {
    let s = from_below(s);
    cross(s.a, s.b, p) < 0
}

fn lies_east_of(s: Seg, p: Point) -> bool {
    let s = from_below(s);
    0 < cross(s.a, s.b, p)
}

/// How many lines at the western end of the row have p east of them.
fn count_before(row: &[Entry], p: Point) -> usize
    ensures { result ≤ length row.now }
{
    row.partition_point(|entry| lies_west_of(entry.line.seg, p))
}

/// How many lines there are to the last that p is on.
fn count_through(row: &[Entry], p: Point) -> usize
    ensures { result ≤ length row.now }
{
    row.partition_point(|entry| !lies_east_of(entry.line.seg, p))
}

/// The lines of a part of a row that go on above a height.
fn going_on(alloc: Global, part: &[Entry], lo: Height) -> Result<Vec<Line>, AllocError>
    ensures { IfOk result (λ v. v.items ≡ filter (goes_above lo.y) (map line_of part.now)) }
{
    part.iter()
        .map(|entry| entry.line)
        .filter(|line| goes_on(line.seg, lo))
        .collect(alloc)
}

/// The lines of a part of a row that go on above a height, and more, from west to east.
fn lines_above(
    alloc: Global,
    part: &[Entry],
    more: &[Line],
    lo: Height,
    hi: Height,
) -> Result<Vec<Line>, AllocError>
    ensures { IfOk result (λ v. IsPermutation (filter (goes_above lo.y) (map line_of part.now) ++ more.now) v.items) }
{
    let mut lines = going_on(alloc, part, lo)?;
    lines.extend_from_slice(more)?;
    lines.sort_unstable_by(
        |s, t|
            ensures { is_lt result ≡ is_before lo.y hi.y s.now.seg t.now.seg }
        { compare(s.seg, t.seg, lo, hi) },
    );
    Ok(lines)
}

/// Entries for these lines, before it is known what has their gaps inside.
fn entries_for(alloc: Global, lines: &[Line]) -> Result<Vec<Entry>, AllocError>
    ensures { IfOk result (λ v. map line_of v.items ≡ lines.now) }
{
    let mut entries = Vec::with_capacity(alloc, lines.len())?;
    for line in lines {
        entries.push(Entry {
            line: *line,
            west: Holders::none(),
        })?;
    }
    Ok(entries)
}

/// Finds what has the gaps west of these lines inside, by the gap east of all. Leaves off where that are too many.
fn find_holders(entries: &mut [Entry], east: Holders, count: Counts)
    ensures { map line_of entries.new ≡ map line_of entries.old }
{
    let mut holders = east;
    for at in (0..entries.len()).rev() {
        match holders.turned(entries[at].line.owner, count) {
            Some(next) => holders = next,
            None => return,
        }
        entries[at] = Entry {
            line: entries[at].line,
            west: holders,
        };
    }
}

fn entry_at(row: &[Entry], at: usize) -> Option<Entry>
    ensures { result ≡ slice_get row.now at }
{
    if at < row.len() { Some(row[at]) } else { None }
}

fn entry_before(row: &[Entry], at: usize) -> Option<Entry>
    ensures { result ≡ entry_before row.now at }
{
    if 0 < at { entry_at(row, at - 1) } else { None }
}

/// What has the gap east of the line before a place inside.
fn holders_at(row: &[Entry], at: usize) -> Holders {
    match entry_at(row, at) {
        Some(entry) => entry.west,
        None => Holders::none(),
    }
}

/// Writes entries over those from a place on.
fn overwrite(row: &mut [Entry], from: usize, entries: &[Entry])
    requires { from + length entries.now ≤ length row.old }
    ensures { row.new ≡ take from row.old ++ (entries.now ++ drop (from + length entries.now) row.old) }
{
    for i in 0..entries.len() {
        row[from + i] = entries[i];
    }
}

/// Puts entries in the place of those from one place to another.
fn put(
    alloc: Global,
    row: &mut Vec<Entry>,
    from: usize,
    to: usize,
    entries: &[Entry],
) -> Result<(), AllocError>
    requires order { from ≤ to }
    requires within { to ≤ length row.old.items }
    ensures { OnOk result (row.new.items ≡ take from row.old.items ++ (entries.now ++ drop to row.old.items)) }
{
    if entries.len() == to - from {
        overwrite(row, from, entries);
        return Ok(());
    }
    let rest = Vec::from_slice(alloc, &row[to..])?;
    row.truncate(from);
    row.extend_from_slice(entries)?;
    row.extend_from_slice(&rest)?;
    Ok(())
}

fn fits_at(row: &[Entry], at: usize, count: Counts) -> bool
    ensures { IsTrue result → IsJointAt count row.now at }
{
    is_joint(entry_before(row, at), entry_at(row, at), count)
}

/// Whether the row fits at all places from one to another.
fn fits_along(row: &[Entry], from: usize, to: usize, count: Counts) -> bool
    ensures { IsTrue result → (at : ℕ) → from ≤ at → at ≤ to → IsJointAt count row.now at }
{
    for at in from..to {
        if !fits_at(row, at, count) {
            return false;
        }
    }
    fits_at(row, to, count)
}

/// The entries that take the place of those from one place to another: those that go on above a height, and more.
fn entries_above(
    alloc: Global,
    row: &[Entry],
    from: usize,
    to: usize,
    more: &[Line],
    lo: Height,
    hi: Height,
    count: Counts,
) -> Result<Vec<Entry>, AllocError>
    requires order { from ≤ to }
    requires within { to ≤ length row.now }
    ensures { IfOk result (λ v. IsPermutation (filter (goes_above lo.y) (map line_of (slice_range row.now from to)) ++ more.now) (map line_of v.items)) }
{
    let lines = lines_above(alloc, &row[from..to], more, lo, hi)?;
    let mut entries = entries_for(alloc, &lines)?;
    let east = holders_at(row, to);
    find_holders(&mut entries, east, count);
    Ok(entries)
}

/// Goes over a stretch of a height: what is new above it is put in, and tested. `false` says nothing.
fn pass(
    alloc: Global,
    row: &mut Vec<Entry>,
    stretch: Stretch,
    more: &[Line],
    lo: Height,
    hi: Height,
    count: Counts,
) -> Result<bool, AllocError>
    ensures sound { IfOk result (λ b. IsTrue b → IsSound count row.old.items → IsSound count row.new.items) }
    ensures same { IfOk result (λ b. IsTrue b → HaveSameAbove lo.y (map line_of row.old.items ++ more.now) (map line_of row.new.items)) }
{
    let from = count_before(row, stretch.west);
    let to = count_through(row, stretch.east);
    if to < from {
        return Ok(false);
    }
    let entries = entries_above(alloc, row, from, to, more, lo, hi, count)?;
    put(alloc, row, from, to, &entries)?;
    Ok(fits_along(row, from, from + entries.len(), count))
}

/// How far the walk has come: the row of the strip below, how many lines have begun, how many stretches were passed, and how
/// many lines have ended.
#[derive(Drop)]
struct Sweep {
    row: Vec<Entry>,
    begun: usize,
    passed: usize,
    ended: usize,
}

/// Passes the next stretch, in which the lines from `begun` on begin. `false` says nothing.
fn pass_next(
    alloc: Global,
    sweep: &mut Sweep,
    rising: &[Line],
    stretch: Stretch,
    lo: Height,
    hi: Height,
    count: Counts,
) -> Result<bool, AllocError>
    ensures { IfOk result (λ b. IsTrue b → IsSweep count rising.now lo.y sweep.old → IsSweep count rising.now lo.y sweep.new) }
{
    let begun = stretch.begun;
    if begun < sweep.begun || rising.len() < begun {
        return Ok(false);
    }
    let more = &rising[sweep.begun..begun];
    sweep.begun = begun;
    pass(alloc, &mut sweep.row, stretch, more, lo, hi, count)
}

/// The height at which a segment ends.
fn top_of(s: Seg) -> Height
    ensures { result ≡ record { y = (upward s).b.y } }
{
    height_of(from_below(s).b)
}

fn all_tops(alloc: Global, rising: &[Line]) -> Result<Vec<Height>, AllocError>
    ensures { IfOk result (λ v. v.items ≡ map top_of rising.now) }
{
    rising.iter().map(|line| top_of(line.seg)).collect(alloc)
}

/// The heights at which lines end, from south to north.
pub(crate) fn tops_of(alloc: Global, rising: &[Line]) -> Result<Vec<Height>, AllocError>
    ensures { IfOk result (λ v. IsPermutation (map top_of rising.now) v.items) }
{
    let mut tops = all_tops(alloc, rising)?;
    tops.sort_unstable_by_key(|height| height.y);
    Ok(tops)
}

/// Whether heights stand from south to north.
fn ascend(heights: &[Height]) -> bool
    ensures { IsTrue result → Ascend heights.now }
{
    for i in 1..heights.len() {
        if heights[i].y < heights[i - 1].y {
            return false;
        }
    }
    true
}

/// The place of the first height above another, from a place on.
fn first_above(tops: &[Height], from: usize, h: Height) -> usize
    ensures within { result ≤ length tops.now }
    ensures above { (d : Height) → result < length tops.now → h.y <ℤ (slice_index_or tops.now result d).y }
{
    for at in from..tops.len() {
        if h.y < tops[at].y {
            return at;
        }
    }
    tops.len()
}

/// Whether all lines before a place have begun at a height; they are in the order in which they begin.
fn all_begun(rising: &[Line], to: usize, h: Height) -> bool
    ensures { IsTrue result → BeginInOrder rising.now → HaveBegun h.y (take to rising.now) }
{
    if to == 0 {
        return true;
    }
    to <= rising.len() && has_begun(rising[to - 1].seg, h)
}

/// Whether a row has at most as many lines as have begun and not ended.
fn is_few(row: usize, begun: usize, ended: usize) -> bool
    ensures { IsTrue result → row + ended ≤ begun }
{
    ended <= begun && row <= begun - ended
}

/// Whether none of the lines from a place on has begun at a height; they are in the order in which they begin.
fn none_begun(rising: &[Line], from: usize, h: Height) -> bool
    ensures { IsTrue result → BeginInOrder rising.now → HaveNotBegun h.y (drop from rising.now) }
{
    from >= rising.len() || !has_begun(rising[from].seg, h)
}

/// Passes the stretches of a height. Whether the row is then that of the strip above, in order and right; `false` says
/// nothing.
fn advance(
    alloc: Global,
    sweep: &mut Sweep,
    rising: &[Line],
    tops: &[Height],
    stretches: &[Stretch],
    lo: Height,
    hi: Height,
    count: Counts,
) -> Result<bool, AllocError>
    requires order { BeginInOrder rising.now }
    requires tops { IsPermutation (map top_of rising.now) tops.now }
    requires ascend { Ascend tops.now }
    ensures { IfOk result (λ b. IsTrue b → IsSweep count rising.now lo.y sweep.old → IsSwept count rising.now lo.y sweep.new) }
{
    for at in sweep.passed..stretches.len() {
        if stretches[at].west.y != lo.y {
            break;
        }
        sweep.passed = at + 1;
        if !pass_next(alloc, sweep, rising, stretches[at], lo, hi, count)? {
            return Ok(false);
        }
    }
    sweep.ended = first_above(tops, sweep.ended, lo);
    if !all_begun(rising, sweep.begun, lo) || !none_begun(rising, sweep.begun, lo) {
        return Ok(false);
    }
    Ok(is_few(sweep.row.len(), sweep.begun, sweep.ended))
}

/// Whether lines stand in the order in which they begin, from south to north.
fn begin_in_order(rising: &[Line]) -> bool
    ensures { IsTrue result → BeginInOrder rising.now }
{
    for i in 1..rising.len() {
        if from_below(rising[i].seg).a.y < from_below(rising[i - 1].seg).a.y {
            return false;
        }
    }
    true
}

fn rises(s: Seg) -> bool
    ensures { result ≡ not (int_eq s.a.y s.b.y) }
{
    s.a.y != s.b.y
}

fn all_rising(alloc: Global, lines: &[Line]) -> Result<Vec<Line>, AllocError>
    ensures { IfOk result (λ v. v.items ≡ filter does_rise lines.now) }
{
    lines
        .iter()
        .filter(|line| rises(line.seg))
        .copied()
        .collect(alloc)
}

/// The lines that rise, in the order in which they begin: from south to north, and from west to east.
pub(crate) fn rising_of(alloc: Global, lines: &[Line]) -> Result<Vec<Line>, AllocError>
    ensures { IfOk result (λ v. IsPermutation (filter does_rise lines.now) v.items) }
{
    let mut rising = all_rising(alloc, lines)?;
    rising.sort_unstable_by_key(|line| {
        let low = from_below(line.seg).a;
        (low.y, low.x)
    });
    Ok(rising)
}

/// Whether a walk from strip to strip finds all of them in order and right; `false` says nothing.
pub(crate) fn are_swept(
    alloc: Global,
    rising: &[Line],
    tops: &[Height],
    stretches: &[Stretch],
    heights: &[Height],
    count: Counts,
) -> Result<bool, AllocError>
    requires ascend { Ascend heights.now }
    requires tops { IsPermutation (map top_of rising.now) tops.now }
    ensures { IfOk result (λ b. IsTrue b → AreSwept count rising.now heights.now) }
{
    if !begin_in_order(rising) || !ascend(tops) {
        return Ok(false);
    }
    let mut sweep = Sweep {
        row: Vec::new(alloc),
        begun: 0,
        passed: 0,
        ended: 0,
    };
    for i in 1..heights.len() {
        let lo = heights[i - 1];
        let hi = heights[i];
        if hi.y <= lo.y {
            continue;
        }
        if !advance(alloc, &mut sweep, rising, tops, stretches, lo, hi, count)? {
            return Ok(false);
        }
    }
    Ok(true)
}
