//! The faces of a generalised grid: pieces of one class and one block that chains of adjacency join. Quiet rows are one
//! item a run, and items are joined as disjoint sets.
#![tactic(auto)]

mod access;
mod band_table;
mod class_bound;
mod face_numbers;
mod faces;
mod joins;
mod needs;
mod piece_table;
mod tables;
mod tally;

pub use face_numbers::fill;
pub use faces::Faces;
pub use needs::{by_need, need};
