// The crossing rule.
ghost use Rattle.std.specs.Prelude.{◌≡◌, ◌≢◌, ◌⊎◌, ℕ, ℤ, ◌+◌, ◌-ℤ◌, ◌<◌, ◌≤◌, min, max, unsigned_abs, List, length, slice_index};
ghost use Rattle.std.specs.Int.{IsGcd, ◌∣◌};
ghost use Rattle.mesh_definitions.specs.Cuts.{common, falls, slope, slot_of, lattice_steps};
ghost use Rattle.mesh_definitions.specs.Field.{field_of};
ghost use Rattle.depth_grid.specs.Grid.{place};
ghost use Rattle.depth_grid.specs.Views.{grid_view};
ghost use Rattle.depth_rounding.specs.Views.{levels_view};
ghost use Rattle.shoal_buffer.specs.Views.{charted_view};
ghost use Rattle.tri_mesh.specs.Fields.{field_in, upwards, crossed, slot_count};
ghost use Rattle.tri_mesh.specs.Numbers.{steps_between, wanted_between, count_between, slot_between};

use crate::MeshEdge;
use depth_grid::{Grid, NodeId};
use depth_rounding::Levels;
use shoal_buffer::Charted;

// The greatest number that divides both.
fn greatest_divisor(a: u32, b: u32) -> u32
    ensures gcd { IsGcd a b result }
    ensures value { result ≡ common a b }
{
    let mut x = a;
    let mut y = b;
    while y != 0 {
        let rest = x % y;
        x = y;
        y = rest;
    }
    x
}

// How far a column is from another.
fn across(grid: &Grid, a: usize, b: usize) -> u32
    requires a { a < length (grid_view grid.now).xs }
    requires b { b < length (grid_view grid.now).xs }
    ensures value { result ≡ unsigned_abs (place (grid_view grid.now).xs b -ℤ place (grid_view grid.now).xs a) }
    ensures whole { 32 ∣ result }
    ensures some { (a ≡ b) ⊎ (0 < result) }
{
    grid.x(b).abs_diff(grid.x(a))
}

// How far a row is from another.
fn down(grid: &Grid, a: usize, b: usize) -> u32
    requires a { a < length (grid_view grid.now).ys }
    requires b { b < length (grid_view grid.now).ys }
    ensures value { result ≡ unsigned_abs (place (grid_view grid.now).ys b -ℤ place (grid_view grid.now).ys a) }
    ensures whole { 32 ∣ result }
    ensures some { (a ≡ b) ⊎ (0 < result) }
{
    grid.y(b).abs_diff(grid.y(a))
}

// Into how many equal steps between whole coordinates the line from one node to another is divided.
pub(crate) fn steps_of_line(ch: &Charted, a: NodeId, b: NodeId) -> u32
    requires a_row { a.row < length (charted_view ch.now).grid.ys }
    requires a_col { a.col < length (charted_view ch.now).grid.xs }
    requires b_row { b.row < length (charted_view ch.now).grid.ys }
    requires b_col { b.col < length (charted_view ch.now).grid.xs }
    requires apart { a ≢ b }
    ensures value { result ≡ steps_between (charted_view ch.now).grid a b }
    ensures several { 32 ≤ result }
{
    let grid = ch.grid();
    greatest_divisor(across(grid, a.col, b.col), down(grid, a.row, b.row))
}

// A slope by numbers: into how many equal steps it is divided, and the charted depths of its ends, the shoaler one first.
#[derive(Clone, Copy)]
struct Rise {
    steps: u32,
    low: i32,
    high: i32,
}

// The slot at which level `k` is wanted: in proportion to depth, rounded up.
fn wanted(rise: Rise, levels: &Levels, k: u32) -> u64
    requires first { 1 ≤ k }
    requires last { k ≤ length (levels_view levels.now) }
    requires apart { rise.low ≢ rise.high }
    ensures { result ≡ wanted_between (levels_view levels.now) rise k }
{
    let whole = rise.high.abs_diff(rise.low) as u64;
    let climb = levels.level(k).abs_diff(rise.low) as u64;
    (rise.steps as u64 * climb).div_ceil(whole)
}

// The wanted slot, but above the one before it and no later than the last one that is left to it.
fn slot_after(before: u32, wanted: u64, last: u32) -> u32
    requires { before < last }
    ensures { result ≡ min (max wanted (before + 1)) last }
{
    if wanted >= last as u64 {
        return last;
    }
    let next = before + 1;
    if wanted >= next as u64 {
        return wanted as u32;
    }
    next
}

// The slots of a slope, from its shoaler end. There are at most 20 levels.
fn slots_up(rise: Rise, levels: &Levels, into: &mut [u32; 20]) -> usize
    requires several { 32 ≤ rise.steps }
    ensures count { result ≡ count_between (levels_view levels.now) rise }
    ensures few { result ≤ 20 }
    ensures each { (i : ℕ) → i < result → slice_index into.new i ≡ slot_between (levels_view levels.now) rise (i + 1) }
{
    let first = levels.band(rise.low);
    let last = levels.band(rise.high);
    if last <= first {
        return 0;
    }
    let count = last - first;
    let mut slot = 0;
    for i in 0..count {
        slot = slot_after(
            slot,
            wanted(rise, levels, first + i + 1),
            rise.steps - (count - i),
        );
        into[i as usize] = slot;
    }
    count as usize
}

// The slots from one node up to another. No level crosses a line with an end without data.
pub(crate) fn slots_between(
    u: NodeId,
    v: NodeId,
    ch: &Charted,
    levels: &Levels,
    into: &mut [u32; 20],
) -> usize
    requires u_row { u.row < length (charted_view ch.now).grid.ys }
    requires u_col { u.col < length (charted_view ch.now).grid.xs }
    requires v_row { v.row < length (charted_view ch.now).grid.ys }
    requires v_col { v.col < length (charted_view ch.now).grid.xs }
    requires apart { u ≢ v }
    ensures count { result ≡ crossed (field_in ch.now levels.now) (upwards u v) }
    ensures few { result ≤ 20 }
    ensures each { (i : ℕ) → i < result → slice_index into.new i ≡ slot_of (field_in ch.now levels.now) (upwards u v) (i + 1) }
    ensures several { 32 ≤ lattice_steps (field_in ch.now levels.now) (upwards u v) }
{
    let steps = steps_of_line(ch, u, v);
    match (ch.c(u), ch.c(v)) {
        (Some(low), Some(high)) => slots_up(Rise { steps, low, high }, levels, into),
        _ => 0,
    }
}

// Whether the first of two nodes is the deeper one. A node without data counts as 0; no level crosses its lines either way.
pub(crate) fn is_deeper(ch: &Charted, a: NodeId, b: NodeId) -> bool
    requires a_row { a.row < length (charted_view ch.now).grid.ys }
    requires a_col { a.col < length (charted_view ch.now).grid.xs }
    requires b_row { b.row < length (charted_view ch.now).grid.ys }
    requires b_col { b.col < length (charted_view ch.now).grid.xs }
    ensures { (levels : List ℤ) → result ≡ falls (field_of (charted_view ch.now) levels) a b }
{
    ch.c(b).unwrap_or(0) < ch.c(a).unwrap_or(0)
}

/// Writes the slots at which levels cross an edge of the mesh, in order from its shoaler node, and answers their number,
/// 0 where no level crosses.
///
/// The edge is divided into the greatest number n of equal steps between whole coordinates. A slot is a number of these
/// steps, from 1 to n − 1, and the slots rise strictly. The nodes are any two of the grid.
pub fn slots(edge: MeshEdge, ch: &Charted, levels: &Levels, into: &mut [u32; 20]) -> usize
    requires a_row { edge.a.row < length (charted_view ch.now).grid.ys }
    requires a_col { edge.a.col < length (charted_view ch.now).grid.xs }
    requires b_row { edge.b.row < length (charted_view ch.now).grid.ys }
    requires b_col { edge.b.col < length (charted_view ch.now).grid.xs }
    requires apart { edge.a ≢ edge.b }
    ensures count { result ≡ slot_count (field_in ch.now levels.now) edge.a edge.b }
    ensures few { result ≤ 20 }
    ensures each { (i : ℕ) → i < result → slice_index into.new i ≡ slot_of (field_in ch.now levels.now) (slope (field_in ch.now levels.now) edge.a edge.b) (i + 1) }
    ensures first { (i : ℕ) → i < result → 1 ≤ slice_index into.new i }
    ensures last { (i : ℕ) → i < result → slice_index into.new i < lattice_steps (field_in ch.now levels.now) (slope (field_in ch.now levels.now) edge.a edge.b) }
    ensures rising { (i k : ℕ) → i < k → k < result → slice_index into.new i < slice_index into.new k }
{
    if is_deeper(ch, edge.a, edge.b) {
        slots_between(edge.b, edge.a, ch, levels, into)
    } else {
        slots_between(edge.a, edge.b, ch, levels, into)
    }
}
