//! The rings of faces and of sets of faces: closed walks along edges that pass no point twice. The edges that border
//! each set are listed once, walked with the set on the right, and cut wherever the walk comes back to a node.
#![tactic(auto)]

mod areas;
mod cutting;
mod parts;
mod ring;
mod sets;

pub use ring::{Part, Ring};
pub use sets::{rings, set_rings};
