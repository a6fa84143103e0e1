// Areas whose edges don't close.
ghost use Rattle.chart_model.specs.RecordIndexes.{AreRecordIndexes};
ghost use Rattle.chart_model.specs.Closed.{is_open, is_open_area, open_area, pointer_ends};
ghost use Rattle.chart_model.specs.Marks.{marks, set_marks, turned_at};
ghost use Rattle.chart_model.specs.Numbers.{connected_numbers};
ghost use Rattle.std.specs.Bool.{OnFalse};
ghost use Rattle.std.specs.Option.{option_map};
ghost use Rattle.std.specs.Prelude.{◌≡◌, ◌≢◌, ◌++◌, ◌∷◌, [], ℕ, List, AllPairs, IfOk};

use crate::index::first;
use crate::record_indexes::{RecordIndexes, edge_of};
use crate::{Feature, Parts, Pointer};
use s57_codes::code::AREA;
use std::alloc::{AllocError, Global};

/// Turns the mark at a place over, if there is one, and answers how many are set then, where `count` were.
fn turn_mark(odd: &mut [bool], place: usize, count: usize) -> usize
    requires { count ≡ set_marks odd.old }
    ensures turned { odd.new ≡ turned_at odd.old place }
    ensures count { result ≡ set_marks odd.new }
{
    if place >= odd.len() {
        return count;
    }
    if odd[place] {
        odd[place] = false;
        count - 1
    } else {
        odd[place] = true;
        count + 1
    }
}

/// Counts an end at the connected node with a number.
fn mark_end(
    parts: &Parts,
    indexes: &RecordIndexes,
    number: u32,
    odd: &mut [bool],
    count: usize,
) -> usize
    requires indexes { AreRecordIndexes parts.now indexes.now }
    requires once { AllPairs ◌≢◌ (connected_numbers parts.now) }
    requires counted { count ≡ set_marks odd.old }
    ensures marked { (before : List ℕ) → odd.old ≡ marks parts.now before → odd.new ≡ marks parts.now (before ++ number ∷ []) }
    ensures counted { result ≡ set_marks odd.new }
{
    turn_mark(odd, first(&indexes.connected, number), count)
}

/// Counts the ends of the edge that a pointer names.
fn mark_pointer(
    parts: &Parts,
    indexes: &RecordIndexes,
    pointer: Pointer,
    odd: &mut [bool],
    count: usize,
) -> usize
    requires indexes { AreRecordIndexes parts.now indexes.now }
    requires once { AllPairs ◌≢◌ (connected_numbers parts.now) }
    requires counted { count ≡ set_marks odd.old }
    ensures marked { (before : List ℕ) → odd.old ≡ marks parts.now before → odd.new ≡ marks parts.now (before ++ pointer_ends parts.now pointer) }
    ensures counted { result ≡ set_marks odd.new }
{
    match edge_of(parts, indexes, pointer.rcid) {
        Some(edge) => {
            let one_more = mark_end(parts, indexes, edge.first, odd, count);
            mark_end(parts, indexes, edge.last, odd, one_more)
        }
        None => count,
    }
}

/// Whether some connected node has an odd number of ends of these pointers' edges. Where none has, all marks are as before.
fn do_not_close(
    parts: &Parts,
    indexes: &RecordIndexes,
    pointers: &[Pointer],
    odd: &mut [bool],
) -> bool
    requires indexes { AreRecordIndexes parts.now indexes.now }
    requires once { AllPairs ◌≢◌ (connected_numbers parts.now) }
    requires even { odd.old ≡ marks parts.now [] }
    ensures open { result ≡ is_open parts.now pointers.now }
    ensures even { OnFalse result (odd.new ≡ marks parts.now []) }
{
    let mut count = 0;
    for pointer in pointers {
        count = mark_pointer(parts, indexes, *pointer, odd, count);
    }
    count > 0
}

/// Whether a feature is an area that doesn't close. Where it isn't, all marks are as before.
fn is_unclosed(parts: &Parts, indexes: &RecordIndexes, feature: &Feature, odd: &mut [bool]) -> bool
    requires indexes { AreRecordIndexes parts.now indexes.now }
    requires once { AllPairs ◌≢◌ (connected_numbers parts.now) }
    requires even { odd.old ≡ marks parts.now [] }
    ensures open { result ≡ is_open_area parts.now feature.now }
    ensures even { OnFalse result (odd.new ≡ marks parts.now []) }
{
    if feature.prim != AREA {
        return false;
    }
    do_not_close(parts, indexes, feature.pointers.as_slice(), odd)
}

/// The number of the first area that doesn't close.
fn first_unclosed(parts: &Parts, indexes: &RecordIndexes, odd: &mut [bool]) -> Option<u32>
    requires indexes { AreRecordIndexes parts.now indexes.now }
    requires once { AllPairs ◌≢◌ (connected_numbers parts.now) }
    requires even { odd.old ≡ marks parts.now [] }
    ensures { result ≡ option_map (λ f. f.rcid) (open_area parts.now) }
{
    let features = parts.features.as_slice();
    for feature in features {
        if is_unclosed(parts, indexes, feature, odd) {
            return Some(feature.rcid);
        }
    }
    None
}

/// The number of the first area whose edges don't close. It takes a byte for each connected node.
pub(crate) fn unclosed(
    alloc: Global,
    parts: &Parts,
    indexes: &RecordIndexes,
) -> Result<Option<u32>, AllocError>
    requires indexes { AreRecordIndexes parts.now indexes.now }
    requires once { AllPairs ◌≢◌ (connected_numbers parts.now) }
    ensures { IfOk result (λ r. r ≡ option_map (λ f. f.rcid) (open_area parts.now)) }
{
    let mut odd = vec![in alloc; false; parts.connected.as_slice().len()]?;
    Ok(first_unclosed(parts, indexes, &mut odd))
}
