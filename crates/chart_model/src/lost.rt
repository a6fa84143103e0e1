// Pointers to nothing.
ghost use Rattle.chart_model.specs.RecordIndexes.{AreRecordIndexes};
ghost use Rattle.chart_model.specs.References.{edge_names, feature_names, names, stands, lost_of};
ghost use Rattle.std.specs.Prelude.{◌≡◌, flat_map};

use crate::record_indexes::{RecordIndexes, stands_in};
use crate::{Edge, Feature, Parts};
use s57_codes::code::{CONNECTED_NODE, EDGE, ISOLATED_NODE};

/// What a pointer names: a kind of record, by its RCNM, and a number.
#[derive(Clone, Copy)]
pub(crate) struct Name {
    pub rcnm: u8,
    pub rcid: u32,
}

/// Whether what is named stands in the chart.
fn is_there(parts: &Parts, indexes: &RecordIndexes, name: Name) -> bool
    requires { AreRecordIndexes parts.now indexes.now }
    ensures { result ≡ stands parts.now name }
{
    match name.rcnm {
        ISOLATED_NODE => stands_in(&indexes.isolated, name.rcid),
        CONNECTED_NODE => stands_in(&indexes.connected, name.rcid),
        EDGE => stands_in(&indexes.edges, name.rcid),
        _ => false,
    }
}

fn lost_of_edge(parts: &Parts, indexes: &RecordIndexes, edge: &Edge) -> Option<Name>
    requires { AreRecordIndexes parts.now indexes.now }
    ensures { result ≡ lost_of parts.now (edge_names edge.now) }
{
    let first = Name {
        rcnm: CONNECTED_NODE,
        rcid: edge.first,
    };
    if !is_there(parts, indexes, first) {
        return Some(first);
    }
    let last = Name {
        rcnm: CONNECTED_NODE,
        rcid: edge.last,
    };
    if !is_there(parts, indexes, last) {
        return Some(last);
    }
    None
}

fn lost_of_feature(parts: &Parts, indexes: &RecordIndexes, feature: &Feature) -> Option<Name>
    requires { AreRecordIndexes parts.now indexes.now }
    ensures { result ≡ lost_of parts.now (feature_names feature.now) }
{
    let pointers = feature.pointers.as_slice();
    for pointer in pointers {
        let name = Name {
            rcnm: pointer.rcnm,
            rcid: pointer.rcid,
        };
        if !is_there(parts, indexes, name) {
            return Some(name);
        }
    }
    None
}

fn lost_in_edges(parts: &Parts, indexes: &RecordIndexes) -> Option<Name>
    requires { AreRecordIndexes parts.now indexes.now }
    ensures { result ≡ lost_of parts.now (flat_map edge_names parts.now.edges) }
{
    let edges = parts.edges.as_slice();
    for edge in edges {
        if let Some(name) = lost_of_edge(parts, indexes, edge) {
            return Some(name);
        }
    }
    None
}

fn lost_in_features(parts: &Parts, indexes: &RecordIndexes) -> Option<Name>
    requires { AreRecordIndexes parts.now indexes.now }
    ensures { result ≡ lost_of parts.now (flat_map feature_names parts.now.features) }
{
    let features = parts.features.as_slice();
    for feature in features {
        if let Some(name) = lost_of_feature(parts, indexes, feature) {
            return Some(name);
        }
    }
    None
}

/// What the first pointer to nothing names: edges come before features.
pub(crate) fn lost(parts: &Parts, indexes: &RecordIndexes) -> Option<Name>
    requires { AreRecordIndexes parts.now indexes.now }
    ensures { result ≡ lost_of parts.now (names parts.now) }
{
    match lost_in_edges(parts, indexes) {
        Some(name) => Some(name),
        None => lost_in_features(parts, indexes),
    }
}
