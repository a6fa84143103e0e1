//! The chart: nodes, edges and features as plain data, and what makes them one chart.
#![tactic(auto)]

mod closed;
mod counts;
mod fault;
mod features;
mod index;
mod law;
mod lines;
mod lists;
mod lost;
mod model;
mod primitives;
mod record_indexes;
mod records;

pub use counts::Tally;
pub use fault::PartFault;
pub use law::{tally_laws, whole_laws};
pub use lists::Items;
pub use model::Chart;
pub use records::{
    Attribute, Connected, Edge, Feature, Header, Isolated, Parts, Pointer, Shape, Sounding,
};
