//! A grid of depths: positions of its nodes, their depths, and discs of nodes.
#![tactic(auto)]

mod access;
mod disc;
mod grid;
mod node;
mod snapping;

pub use disc::{Radii, Reach};
pub use grid::Grid;
pub use node::NodeId;
pub use snapping::snap;
