//! A grid and a sheet that are the same on every machine, to try the compiler on.
#![tactic(auto)]

mod depths;
mod making;
mod places;
mod rules;

pub use making::sample_grid;
pub use rules::sample_sheet;
