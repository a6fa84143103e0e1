//! The chart that an S-57 cell's bytes stand for.
#![tactic(auto)]

mod fault;
mod feature;
mod gathered;
mod header;
mod reading;
mod record;
mod vector;

pub use fault::CellFault;
pub use reading::read_cell;
