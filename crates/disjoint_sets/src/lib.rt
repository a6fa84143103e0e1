//! Disjoint sets of items, which are joined two by two and then numbered. Each item has a parent, a root is its own; a walk
//! to the root halves the way, so that many walks take little more time each than one step. Parents take 4 bytes an item,
//! and the numbers are written in their place.
#![tactic(auto)]

mod forest;
mod joining;

pub use forest::Forest;
pub use joining::{SetNumbers, singles};
