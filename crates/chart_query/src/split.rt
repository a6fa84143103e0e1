// A balanced split of the strips. Its levels halve the strips again and again: level 0 has a node for each strip, the next
// one for each two, and so on. A side stands in the nodes that make up the strips that it crosses, at most two a level.
ghost use Rattle.chart_query.specs.Split.{buckets_of, entry_of, FitsSplit, IsSplit, level_nodes};
ghost use Rattle.std.specs.Prelude.{◌≡◌, ◌+◌, ◌*◌, ◌++◌, ◌<◌, ◌≤◌, ◌^◌, IfOk, map, OnOk};

use crate::sides::Side;
use std::alloc::{AllocError, Global};

/// A side at one of the places where it stands.
#[derive(Clone, Copy)]
pub(crate) struct Entry {
    pub bucket: usize,
    pub side: Side,
}

/// Where the buckets of each level begin, level 0 first, and where those of the heights begin, which follow them.
#[derive(Drop)]
pub(crate) struct Split {
    pub bases: Vec<usize>,
    pub heights: usize,
}

/// The split of the strips from 0 to the last one. Buckets are numbered from 1.
pub(crate) fn split_of(alloc: Global, last: usize) -> Result<Split, AllocError>
    requires { last ≤ 2 ^ 32 }
    ensures split { IfOk result (λ s. IsSplit s.bases.items 1 last s.heights) }
    ensures small { IfOk result (λ s. s.heights ≤ 1 + 3 * last) }
{
    let mut bases = Vec::new(alloc);
    let mut base = 1;
    let mut left = last;
    while left > 0 {
        bases.push(base)?;
        base += left + 1;
        left /= 2;
    }
    Ok(Split {
        bases,
        heights: base,
    })
}

/// Appends the entries of a side at one level: where the strips from low to high begin or end with half a node of the next.
fn append_level(
    base: usize,
    low: usize,
    high: usize,
    side: Side,
    entries: &mut Vec<Entry>,
) -> Result<(), AllocError>
    requires { base + high < 2 ^ 64 }
    ensures { OnOk result (entries.new.items ≡ entries.old.items ++ map (entry_of side) (level_nodes base low high)) }
{
    if low >= high {
        return Ok(());
    }
    if low % 2 == 1 {
        entries.push(Entry {
            bucket: base + low,
            side,
        })?;
    }
    if high % 2 == 1 {
        entries.push(Entry {
            bucket: base + (high - 1),
            side,
        })?;
    }
    Ok(())
}

/// Appends the entries of a side that crosses the strips from low to high, the latter left out, and whose higher end is at
/// the height that begins strip high.
pub(crate) fn append_entries(
    split: &Split,
    low: usize,
    high: usize,
    side: Side,
    entries: &mut Vec<Entry>,
) -> Result<(), AllocError>
    requires { FitsSplit split.now.bases.items split.now.heights low high }
    ensures { OnOk result (entries.new.items ≡ entries.old.items ++ map (entry_of side) (buckets_of split.now.bases.items split.now.heights low high)) }
{
    let mut from = low;
    let mut to = high;
    for base in &split.bases {
        append_level(*base, from, to, side, entries)?;
        from = (from + 1) / 2;
        to /= 2;
    }
    entries.push(Entry {
        bucket: split.heights + high,
        side,
    })?;
    Ok(())
}
