//! What lies at a point by a grid and a sheet, without a chart.
#![tactic(auto)]

mod answer;
mod ground;

pub use answer::GroundAt;
pub use ground::ground_at;
