// An index of the numbers of a list of records.
ghost use Rattle.std.specs.List.{position_or_len};
ghost use Rattle.chart_model.specs.declared.index.Entry.{Entry};
ghost use Rattle.std.specs.Prelude.{◌≡◌, ◌==◌, ℕ, ◌<◌, ◌≤◌, ◌^◌, List, length, IfOk, IsTrue, ◌-◌, slice_index, slice_index_or};
ghost use Rattle.chart_model.specs.Index.{AreFirst, AreOrdered, IsFirstAt, IsIndex, IsLowerBound};

use std::alloc::{AllocError, Global};

/// A record's number and its place in its list. Entries are in order of number and then place.
#[derive(Clone, Copy, PartialEq, Eq, PartialOrd, Ord)]
pub(crate) struct Entry {
    pub number: u32,
    pub place: u32,
}

/// The entries of a list of numbers, as they stand.
fn listed(alloc: Global, numbers: &[u32]) -> Result<Vec<Entry>, AllocError>
    requires { length numbers.now < 2 ^ 32 }
    ensures { IfOk result (λ v. AreFirst numbers.now (length numbers.now) v.items) }
{
    let mut entries = Vec::with_capacity(alloc, numbers.len())?;
    for (place, number) in numbers.iter().enumerate() {
        entries.push(Entry {
            number: *number,
            place: place as u32,
        })?;
    }
    Ok(entries)
}

/// The index of a list of numbers. Refuses only for want of memory.
pub(crate) fn index_of(alloc: Global, numbers: &[u32]) -> Result<Vec<Entry>, AllocError>
    requires { length numbers.now < 2 ^ 32 }
    ensures { IfOk result (λ v. IsIndex numbers.now v.items) }
{
    let mut entries = listed(alloc, numbers)?;
    entries.sort_unstable();
    Ok(entries)
}

/// Where a number would stand if the numbers rose by one.
fn guess(entries: &[Entry], number: u32) -> usize {
    match entries.first() {
        Some(entry) => number.wrapping_sub(entry.number) as usize,
        None => 0,
    }
}

/// Whether a place has the number, and the one before it a lower one.
fn is_first_at(entries: &[Entry], number: u32, at: usize) -> bool
    ensures { IsTrue result → IsFirstAt entries.now number at }
{
    if at >= entries.len() || entries[at].number != number {
        return false;
    }
    at == 0 || entries[at - 1].number < number
}

/// The place of the first entry whose number isn't below this one.
fn lower_bound(entries: &[Entry], number: u32) -> usize
    ensures { AreOrdered entries.now → IsLowerBound entries.now number result }
{
    let at = guess(entries, number);
    if is_first_at(entries, number, at) {
        at
    } else {
        entries.partition_point(|e| e.number < number)
    }
}

/// The first place of a number in the list that the index is of, or the list's length where it doesn't have it.
pub(crate) fn first(entries: &[Entry], number: u32) -> usize
    ensures { (numbers : List ℕ) → IsIndex numbers entries.now → result ≡ position_or_len (λ n. n == number) numbers }
{
    let at = lower_bound(entries, number);
    if at < entries.len() && entries[at].number == number {
        entries[at].place as usize
    } else {
        entries.len()
    }
}
