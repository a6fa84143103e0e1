// The lengths of records.
ghost use Rattle.std.specs.Prelude.{◌≡◌, ◌+◌, ◌*◌, ◌-◌, ◌<◌, ◌≤◌, ◌^◌, ◌==◌, IfSome, None, Some, if◌then◌else◌, length, min, nat_lt, sum_by};
ghost use Rattle.cell_writer.specs.Layout.{data_set_parts, edge_parts, feature_parts, isolated_parts, parameter_parts};
ghost use Rattle.cell_writer.specs.Sizes.{plus_all, short_size, size_of};
ghost use Rattle.chart_model.specs.Whole.{IsWellFormed};
ghost use Rattle.chart_model.specs.declared.records.Attribute.{Attribute};

use chart_model::{Attribute, Edge, Feature, Header, Isolated, Parts, Shape};
use iso8211_codec::{ENTRY_LEN, FIRST_LEN, FRAME_LEN};

/// The most bytes that a record has: five digits say its length.
const LONGEST: usize = 99_999;

// What fields take, in bytes: the widths of their subfields (S-57 Edition 3.1, Part 3, 7.3, 7.6 and 7.7), with 1 for the
// 0x1F that ends a text.

/// The entry of a field and the 0x1E that ends it.
const FIELD: usize = ENTRY_LEN + 1;
/// A record's frame and its field 0001, a number of 2 bytes.
const RECORD: usize = FRAME_LEN + FIELD + 2;
/// DSID beside its texts and dates: RCNM, RCID, EXPP, INTU, PRSP, PROF and AGEN, and the ends of DSNM, EDTN, UPDN, PSDN,
/// PRED and COMT.
const DSID: usize = FIELD + (1 + 4 + 1 + 1 + 1 + 1 + 2) + 6;
/// DSSI: DSTR, AALL and NALL, and eight numbers of records.
const DSSI: usize = FIELD + 3 + 8 * 4;
/// DSPM beside its text: RCNM, RCID, HDAT, VDAT, SDAT, CSCL, DUNI, HUNI, PUNI, COUN, COMF and SOMF, and the end of COMT.
const DSPM: usize = FIELD + (1 + 4 + 3 + 4 + 4 + 4 + 4) + 1;
/// VRID: RCNM, RCID, RVER and RUIN.
const VRID: usize = FIELD + 1 + 4 + 2 + 1;
/// A pointer of VRPT: NAME, ORNT, USAG, TOPI and MASK.
const END: usize = 5 + 4;
/// A point of SG2D: YCOO and XCOO.
const POINT: usize = 4 + 4;
/// A sounding of SG3D: YCOO, XCOO and VE3D.
const SOUNDING: usize = 4 + 4 + 4;
/// FRID: RCNM, RCID, PRIM, GRUP, OBJL, RVER and RUIN.
const FRID: usize = FIELD + 1 + 4 + 1 + 1 + 2 + 2 + 1;
/// FOID: AGEN, FIDN and FIDS.
const FOID: usize = FIELD + 2 + 4 + 2;
/// An attribute of ATTF beside its text: ATTL, and the end of ATVL.
const ATTRIBUTE: usize = 2 + 1;
/// A pointer of FSPT: NAME, ORNT, USAG and MASK.
const POINTER: usize = 5 + 3;
/// A node at one point.
const NODE: usize = RECORD + VRID + FIELD + POINT;

// A length that five digits say. Where a length passes every number it is the greatest.
fn short(size: usize) -> Option<usize>
    ensures { result ≡ (if nat_lt size 100000 then Some size else None) }
{
    if size <= LONGEST { Some(size) } else { None }
}

// A length with that of a text.
fn longer(size: usize, text: &[u8]) -> usize
    ensures { result ≡ min (size + length text.now) (2 ^ 64 - 1) }
{
    size.saturating_add(text.len())
}

// What a field of so many groups takes with its entry; where there are none there is no field.
fn groups_size(count: usize, group: usize) -> usize
    ensures { result ≡ min (if count == 0 then 0 else FIELD + count * group) (2 ^ 64 - 1) }
{
    if count == 0 {
        return 0;
    }
    count.saturating_mul(group).saturating_add(FIELD)
}

// What a field of these attributes takes with its entry.
fn attributes_size(attributes: &[Attribute]) -> usize
    ensures { result ≡ min (if length attributes.now == 0 then 0 else FIELD + sum_by (λ (a : Attribute). length a.text + ATTRIBUTE) attributes.now) (2 ^ 64 - 1) }
{
    if attributes.is_empty() {
        return 0;
    }
    let mut total = FIELD;
    for attribute in attributes {
        total = total.saturating_add(attribute.text.as_slice().len() + ATTRIBUTE);
    }
    total
}

/// The length of the data set's record. The dates and STED are as long as their arrays.
fn data_set_size(parts: &Parts) -> Option<usize>
    ensures { result ≡ short_size (data_set_parts 0 parts.now) }
{
    let header = &parts.header;
    let size = longer(RECORD + DSID + DSSI, &header.uadt);
    let size = longer(size, &header.isdt);
    let size = longer(size, &header.sted);
    let size = longer(size, header.dsnm.as_slice());
    let size = longer(size, header.edtn.as_slice());
    let size = longer(size, header.updn.as_slice());
    let size = longer(size, header.psdn.as_slice());
    let size = longer(size, header.pred.as_slice());
    let size = longer(size, header.comt.as_slice());
    short(size)
}

/// The length of the parameters' record.
fn parameters_size(header: &Header) -> Option<usize>
    ensures { result ≡ short_size (parameter_parts 0 header.now) }
{
    short(RECORD + DSPM + header.note.as_slice().len())
}

/// The length of an isolated node's record.
fn isolated_size(node: &Isolated) -> Option<usize>
    ensures { result ≡ short_size (isolated_parts 0 node.now) }
{
    match &node.shape {
        Shape::One(_) => Some(NODE),
        Shape::Soundings(list) => {
            let soundings = list.as_slice().len().saturating_mul(SOUNDING);
            short(soundings.saturating_add(RECORD + VRID + FIELD))
        }
    }
}

/// The length of an edge's record.
fn edge_size(edge: &Edge) -> Option<usize>
    ensures { result ≡ short_size (edge_parts 0 edge.now) }
{
    let inner = groups_size(edge.inner.as_slice().len(), POINT);
    short(inner.saturating_add(RECORD + VRID + FIELD + 2 * END))
}

/// The length of a feature's record.
fn feature_size(feature: &Feature) -> Option<usize>
    ensures { result ≡ short_size (feature_parts 0 feature.now) }
{
    let attributes = attributes_size(feature.attributes.as_slice());
    let pointers = groups_size(feature.pointers.as_slice().len(), POINTER);
    short(
        attributes
            .saturating_add(pointers)
            .saturating_add(RECORD + FRID + FOID),
    )
}

/// The length of the records of isolated nodes, where each is short.
fn isolated_sizes(nodes: &[Isolated]) -> Option<usize>
    requires { length nodes.now < 2 ^ 32 }
    ensures sum { result ≡ plus_all (λ node. short_size (isolated_parts 0 node)) nodes.now }
    ensures few { IfSome result (λ size. size < 2 ^ 49) }
{
    let mut total = 0;
    for node in nodes {
        match isolated_size(node) {
            Some(size) => total += size,
            None => return None,
        }
    }
    Some(total)
}

/// The length of the records of edges, where each is short.
fn edges_size(edges: &[Edge]) -> Option<usize>
    requires { length edges.now < 2 ^ 32 }
    ensures sum { result ≡ plus_all (λ edge. short_size (edge_parts 0 edge)) edges.now }
    ensures few { IfSome result (λ size. size < 2 ^ 49) }
{
    let mut total = 0;
    for edge in edges {
        match edge_size(edge) {
            Some(size) => total += size,
            None => return None,
        }
    }
    Some(total)
}

/// The length of the records of features, where each is short.
fn features_size(features: &[Feature]) -> Option<usize>
    requires { length features.now < 2 ^ 32 }
    ensures sum { result ≡ plus_all (λ feature. short_size (feature_parts 0 feature)) features.now }
    ensures few { IfSome result (λ size. size < 2 ^ 49) }
{
    let mut total = 0;
    for feature in features {
        match feature_size(feature) {
            Some(size) => total += size,
            None => return None,
        }
    }
    Some(total)
}

/// The length of the cell, where each of its records is short. It takes no memory.
pub(crate) fn cell_size(parts: &Parts) -> Option<usize>
    requires { IsWellFormed parts.now }
    ensures { result ≡ size_of parts.now }
{
    let Some(data_set) = data_set_size(parts) else {
        return None;
    };
    let Some(parameters) = parameters_size(&parts.header) else {
        return None;
    };
    let Some(isolated) = isolated_sizes(parts.isolated.as_slice()) else {
        return None;
    };
    let connected = NODE * parts.connected.as_slice().len();
    let Some(edges) = edges_size(parts.edges.as_slice()) else {
        return None;
    };
    let Some(features) = features_size(parts.features.as_slice()) else {
        return None;
    };
    Some(data_set + parameters + isolated + connected + edges + features + FIRST_LEN)
}
