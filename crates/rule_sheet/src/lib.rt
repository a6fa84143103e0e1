//! The rule sheet: how a grid of depths becomes a chart, read from TOML.
#![tactic(auto)]

mod fault;
mod key;
mod lists;
mod parts;
mod reading;
mod rows;
mod sheet;

pub use fault::SheetFault;
pub use key::Key;
pub use reading::read_sheet;
pub use sheet::{Sense2, Sheet};
