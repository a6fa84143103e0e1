//! What an update makes of the chart of a cell (S-57 Edition 3.1, Part 3, 8).
#![tactic(auto)]

mod applying;
mod deeds;
mod draft;
mod law;
mod making;
mod revised;
mod sequence;

pub use applying::{apply, change};
pub use law::update_laws;
