//! The chart of a grid and a sheet, as the bytes of a cell.
#![tactic(auto)]

mod areas;
mod attributes;
mod contours;
mod coverage;
mod extent;
mod features;
mod header;
mod kinds;
mod making;
mod nodes;
mod pointers;
mod size;
mod soundings;
mod topology;
mod writing;

pub use making::compile;
pub use size::{SIZE_LIMIT, size_of, within_size};
pub use writing::Compiled;
