//! Runs of the command over devices in memory, for the rows and the tests above.
#![tactic(auto)]

mod grids;
mod runs;

pub use grids::{G1, NONE, THREE, shelf_of};
pub use runs::{Wrong, expect, holding, outcome};
