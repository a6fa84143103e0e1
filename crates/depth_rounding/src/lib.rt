//! Rounding of depths towards shoal, and the bands between levels.
#![tactic(auto)]

mod bands;
mod levels;
mod padding;
mod rounding;
mod steps;

pub use levels::Levels;
pub use rounding::shoal;
pub use steps::Bands;
