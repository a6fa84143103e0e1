//! What an update file of a cell says: which update it is, and its changes (S-57 Edition 3.1, Part 3, 8).
#![tactic(auto)]

mod change;
mod controls;
mod fault;
mod feature;
mod kinds;
mod reading;
mod record;
mod vector;

pub use change::{Change, Deed, Edit, Issue, Splice, Update};
pub use fault::UpdateFault;
pub use reading::read_update;
