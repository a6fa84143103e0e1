//! A coarse grid that stays shoal-biased, of a fine one.
#![tactic(auto)]

mod coarsening;
mod laws;
mod least;
mod narrowing;

pub use coarsening::overview;
pub use laws::coarse_grids;
