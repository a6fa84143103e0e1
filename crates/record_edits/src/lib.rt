//! How a modification of an update changes one record of a chart (S-57 Edition 3.1, Part 3, 8), and copies of records.
#![tactic(auto)]

mod attributes;
mod copies;
mod features;
mod law;
mod splices;
mod vectors;

pub use copies::{copied_edge, copied_feature, copied_header, copied_isolated, copied_items};
pub use features::edited_feature;
pub use law::edit_laws;
pub use vectors::{edited_connected, edited_edge, edited_isolated};
