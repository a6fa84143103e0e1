//! Exact decimal numbers: their texts, floors, equality and order, and the texts of depths and positions.
#![tactic(auto)]

mod decimal;
mod laws;
mod printing;
mod reading;
mod wide;

pub use decimal::{Decimal, NotDecimal, less, read_decimal, same, scaled_floor, whole};
pub use laws::{decimetres_differ, floor_is_greatest, less_is_order, reads_parts, whole_is_worth};
pub use printing::{decimetres_text, degree_text};
