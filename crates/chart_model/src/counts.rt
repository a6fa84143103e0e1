// How many areas, contours and soundings a chart has.
ghost use Rattle.chart_model.specs.Areas.{is_area};
ghost use Rattle.chart_model.specs.RecordIndexes.{AreRecordIndexes};
ghost use Rattle.chart_model.specs.Tally.{soundings_at, soundings_in, soundings_of, tally_of, IsMeasured, IsTally};
ghost use Rattle.s57_codes.specs.Catalogue.{objl_depcnt};
ghost use Rattle.std.specs.Prelude.{◌≡◌, ◌<◌, ◌≤◌, ◌*◌, ◌^◌, ◌==◌, count_by, length, sum_by};

use crate::record_indexes::{RecordIndexes, isolated_of};
use crate::{Chart, Feature, Isolated, Parts, Pointer, Shape};
use s57_codes::code::{AREA, DEPCNT, ISOLATED_NODE, SKIN, SOUNDG};

/// The numbers of group 1 areas, of contours (DEPCNT) and of soundings.
#[derive(Clone, Copy, Debug, PartialEq, Eq)]
pub struct Tally {
    pub areas: u64,
    pub contours: u64,
    pub soundings: u64,
}

fn count_areas(features: &[Feature]) -> u64
    ensures { result ≡ count_by is_area features.now }
{
    features
        .iter()
        .filter(|feature| feature.prim == AREA && feature.grup == SKIN)
        .count() as u64
}

fn count_contours(features: &[Feature]) -> u64
    ensures { result ≡ count_by (λ f. f.objl == objl_depcnt) features.now }
{
    features
        .iter()
        .filter(|feature| feature.objl == DEPCNT)
        .count() as u64
}

/// How many soundings stand at a node.
fn soundings_here(node: &Isolated) -> usize
    ensures { result ≡ length (soundings_of node.now) }
{
    match &node.shape {
        Shape::One(_) => 0,
        Shape::Soundings(list) => list.as_slice().len(),
    }
}

/// How many soundings a pointer names.
fn soundings_named(parts: &Parts, indexes: &RecordIndexes, pointer: Pointer) -> u64
    requires indexes { AreRecordIndexes parts.now indexes.now }
    requires measured { IsMeasured parts.now }
    ensures value { result ≡ soundings_at parts.now pointer }
    ensures few { result ≤ 12500 }
{
    if pointer.rcnm != ISOLATED_NODE {
        return 0;
    }
    match isolated_of(parts, indexes, pointer.rcid) {
        Some(node) => soundings_here(node) as u64,
        None => 0,
    }
}

/// How many soundings these pointers name, each time that they stand.
fn soundings_along(parts: &Parts, indexes: &RecordIndexes, pointers: &[Pointer]) -> u64
    requires indexes { AreRecordIndexes parts.now indexes.now }
    requires measured { IsMeasured parts.now }
    requires few { length pointers.now ≤ 12500 }
    ensures value { result ≡ sum_by (soundings_at parts.now) pointers.now }
    ensures few { result ≤ 156250000 }
{
    let mut total = 0;
    for pointer in pointers {
        total += soundings_named(parts, indexes, *pointer);
    }
    total
}

fn count_soundings(parts: &Parts, indexes: &RecordIndexes) -> u64
    requires indexes { AreRecordIndexes parts.now indexes.now }
    requires measured { IsMeasured parts.now }
    requires few { length parts.now.features < 2 ^ 32 }
    ensures { result ≡ sum_by (soundings_in parts.now) parts.now.features }
{
    let features = parts.features.as_slice();
    let mut total = 0;
    for feature in features {
        if feature.objl == SOUNDG {
            total += soundings_along(parts, indexes, feature.pointers.as_slice());
        }
    }
    total
}

impl Chart {
    /// The numbers of its group 1 areas, its contours and its soundings. A sounding counts each time that a pointer of a
    /// SOUNDG names its node. It takes no memory.
    pub fn tally(&self) -> Tally
        requires { IsMeasured self.now }
        ensures value { result ≡ tally_of self.now }
        ensures plain { IsTally self.now result }
    {
        let features = self.parts.features.as_slice();
        Tally {
            areas: count_areas(features),
            contours: count_contours(features),
            soundings: count_soundings(&self.parts, &self.indexes),
        }
    }
}
