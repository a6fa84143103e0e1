//! The parts of a chart that are made of a grid and a sheet: nodes, edges, and features with their attributes and
//! pointers. Definitions over plain values, for the crates that make the parts and for the laws that hold of them.
#![tactic(auto)]

ghost use Rattle.built_parts.specs.Laws.{KnowsWhere};

/// Where an edge lies: on the border of the coverage, between two blocks, or within one.
#[derive(Clone, Copy, Debug, PartialEq, Eq)]
pub enum EdgePlace {
    Border,
    Seam,
    Within,
}

/// An edge on the border is truncated by the data limit and shows as it is; one between two blocks is masked, and one
/// within a block is shown. This call does nothing: its clause is a law of the definitions.
pub fn line_pointers()
    ensures where_they_lie { KnowsWhere }
{}
