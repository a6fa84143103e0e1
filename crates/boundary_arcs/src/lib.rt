//! The edges of a chart: chains of drawn sub-segments between junctions, each with the faces on its two sides.
#![tactic(auto)]

mod access;
mod all_arcs;
mod arc;
mod chain_edges;
mod chord_lines;
mod closed_chains;
mod drawn_net;
mod grid_edges;
mod link_parts;
mod link_sides;
mod net;
mod net_lines;

pub use all_arcs::Arcs;
pub use arc::{Arc, Side};
pub use grid_edges::arcs;
