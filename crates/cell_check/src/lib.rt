//! Whether the areas of a cell tile what it covers.
#![tactic(auto)]

mod entry;
mod features;
mod finding;
mod holders;
mod inside;
mod laws;
mod line;
mod marks;
mod order;
mod owners;
mod plan;
mod row;
mod survey;
mod sweep;
mod tiling;
mod verdict;

pub use laws::one_verdict;
pub use tiling::check;
pub use verdict::Verdict;
