//! Tests of the check of tilings, on charts made by hand.
#![tactic(auto)]

pub mod rings;
#[cfg(test)]
mod tiling;
