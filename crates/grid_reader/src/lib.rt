//! ESRI ASCII grids: the grid that a text stands for, or its first fault.
#![tactic(auto)]

mod fault;
mod found;
mod header;
mod key;
mod marks;
mod millimetres;
mod reading;
mod sense;
mod shape;
mod short;
mod span;
mod values;
mod words;

pub use fault::GridFault;
pub use key::GridKey;
pub use reading::read_grid;
pub use sense::Sense;
