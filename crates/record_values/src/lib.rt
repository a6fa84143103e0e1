//! What the fields of S-57's records stand for (Edition 3.1, Part 3): fields found by their tags, groups that repeat,
//! attributes, nodes, edges and features. Reading a cell and reading an update of one stand on it.
#![tactic(auto)]

mod attributes;
mod data_set;
mod features;
mod fields;
mod groups;
mod vector_groups;
mod vectors;

pub use attributes::attributes_of;
pub use data_set::{identity_in, text_of};
pub use features::{feature_of, name_in, pointers_of};
pub use fields::{are_whole, count_of, leads, list_fields, only};
pub use groups::{Group, list_groups};
pub use vector_groups::VectorGroups;
pub use vectors::{connected_of, edge_of, has_whole_groups, is_known, isolated_of};
