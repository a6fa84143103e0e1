//! A grid generalised towards shoal: its opening by discs, and charted depths.
#![tactic(auto)]

mod access;
mod charted;
mod discs;
mod growing;
mod opening;
mod pass;
mod picking;
mod picks;
mod rows;
mod sliding;

pub use charted::Charted;
pub use opening::generalise;
