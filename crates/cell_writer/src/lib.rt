//! A chart as the bytes of an S-57 cell.
#![tactic(auto)]

mod counts;
mod data_set;
mod draft;
mod feature;
mod fields;
mod laws;
mod sizes;
mod vector;
mod writing;

pub use writing::{cell_len, fits, write_cell};
