// The indexes of a chart's nodes and edges, and records by their numbers.
ghost use Rattle.chart_model.specs.RecordIndexes.{AreRecordIndexes};
ghost use Rattle.chart_model.specs.Index.{IsIndex};
ghost use Rattle.chart_model.specs.Lines.{connected_at, edge_at, isolated_at};
ghost use Rattle.chart_model.specs.Numbers.{has, repeated, isolated_numbers, connected_numbers, edge_numbers, feature_numbers};
ghost use Rattle.chart_model.specs.Whole.{first_twice, twice, IsWellFormed, Refuses};
ghost use Rattle.std.specs.Option.{option_copied};
ghost use Rattle.std.specs.Prelude.{◌≡◌, ◌<◌, ◌^◌, ℕ, List, length, IfErr, IfOk, OnOk};

use crate::index::{Entry, first, index_of};
use crate::{Connected, Edge, Isolated, PartFault, Parts};
use s57_codes::code::{CONNECTED_NODE, EDGE, FEATURE, ISOLATED_NODE};
use std::alloc::{AllocError, Global};

/// The indexes of the lists that pointers point into.
#[derive(Drop)]
pub(crate) struct RecordIndexes {
    pub isolated: Vec<Entry>,
    pub connected: Vec<Entry>,
    pub edges: Vec<Entry>,
}

fn numbers_of_isolated(alloc: Global, parts: &Parts) -> Result<Vec<u32>, AllocError>
    ensures { IfOk result (λ v. v.items ≡ isolated_numbers parts.now) }
{
    parts
        .isolated
        .as_slice()
        .iter()
        .map(|node| node.rcid)
        .collect(alloc)
}

fn numbers_of_connected(alloc: Global, parts: &Parts) -> Result<Vec<u32>, AllocError>
    ensures { IfOk result (λ v. v.items ≡ connected_numbers parts.now) }
{
    parts
        .connected
        .as_slice()
        .iter()
        .map(|node| node.rcid)
        .collect(alloc)
}

fn numbers_of_edges(alloc: Global, parts: &Parts) -> Result<Vec<u32>, AllocError>
    ensures { IfOk result (λ v. v.items ≡ edge_numbers parts.now) }
{
    parts
        .edges
        .as_slice()
        .iter()
        .map(|edge| edge.rcid)
        .collect(alloc)
}

fn numbers_of_features(alloc: Global, parts: &Parts) -> Result<Vec<u32>, AllocError>
    ensures { IfOk result (λ v. v.items ≡ feature_numbers parts.now) }
{
    parts
        .features
        .as_slice()
        .iter()
        .map(|feature| feature.rcid)
        .collect(alloc)
}

/// The first number of a list that stood in it before.
fn first_repeated(numbers: &[u32], entries: &[Entry]) -> Option<u32>
    requires { IsIndex numbers.now entries.now }
    ensures { result ≡ repeated numbers.now }
{
    for (place, number) in numbers.iter().enumerate() {
        if first(entries, *number) < place {
            return Some(*number);
        }
    }
    None
}

/// The index of a list in which no number stands twice.
fn indexed(alloc: Global, rcnm: u8, numbers: &[u32]) -> Result<Vec<Entry>, PartFault>
    requires { length numbers.now < 2 ^ 32 }
    ensures index { IfOk result (λ v. IsIndex numbers.now v.items) }
    ensures once { OnOk result (twice rcnm numbers.now ≡ None) }
    ensures refused { IfErr result (Refuses (twice rcnm numbers.now)) }
{
    let entries = index_of(alloc, numbers)?;
    match first_repeated(numbers, &entries) {
        Some(number) => Err(PartFault::Twice(rcnm, number)),
        None => Ok(entries),
    }
}

/// The indexes of parts in which no number stands twice in a list.
pub(crate) fn indexes_of(alloc: Global, parts: &Parts) -> Result<RecordIndexes, PartFault>
    requires { IsWellFormed parts.now }
    ensures indexes { IfOk result (AreRecordIndexes parts.now) }
    ensures once { OnOk result (first_twice parts.now ≡ None) }
    ensures refused { IfErr result (Refuses (first_twice parts.now)) }
{
    let numbers = numbers_of_isolated(alloc, parts)?;
    let isolated = indexed(alloc, ISOLATED_NODE, &numbers)?;
    let numbers = numbers_of_connected(alloc, parts)?;
    let connected = indexed(alloc, CONNECTED_NODE, &numbers)?;
    let numbers = numbers_of_edges(alloc, parts)?;
    let edges = indexed(alloc, EDGE, &numbers)?;
    let numbers = numbers_of_features(alloc, parts)?;
    let _features = indexed(alloc, FEATURE, &numbers)?;
    Ok(RecordIndexes {
        isolated,
        connected,
        edges,
    })
}

/// Whether a number stands in the list that the index is of.
pub(crate) fn stands_in(entries: &[Entry], number: u32) -> bool
    ensures { (numbers : List ℕ) → IsIndex numbers entries.now → result ≡ has numbers number }
{
    first(entries, number) < entries.len()
}

/// The edge with a number.
pub(crate) fn edge_of<'a>(
    parts: &'a Parts,
    indexes: &RecordIndexes,
    number: u32,
) -> Option<&'a Edge>
    requires { AreRecordIndexes parts.now indexes.now }
    ensures { option_copied result ≡ edge_at parts.now number }
{
    parts.edges.as_slice().get(first(&indexes.edges, number))
}

/// The isolated node with a number.
pub(crate) fn isolated_of<'a>(
    parts: &'a Parts,
    indexes: &RecordIndexes,
    number: u32,
) -> Option<&'a Isolated>
    requires { AreRecordIndexes parts.now indexes.now }
    ensures { option_copied result ≡ isolated_at parts.now number }
{
    parts
        .isolated
        .as_slice()
        .get(first(&indexes.isolated, number))
}

/// The connected node with a number.
pub(crate) fn connected_of<'a>(
    parts: &'a Parts,
    indexes: &RecordIndexes,
    number: u32,
) -> Option<&'a Connected>
    requires { AreRecordIndexes parts.now indexes.now }
    ensures { option_copied result ≡ connected_at parts.now number }
{
    parts
        .connected
        .as_slice()
        .get(first(&indexes.connected, number))
}
