//! The picture of a chart as an SVG, in whole numbers.
#![tactic(auto)]

mod borders;
mod colours;
mod drawing;
mod frame;
mod framing;
mod laws;
mod layer;
mod layering;
mod lines;
mod soundings;
mod titles;

pub use drawing::picture;
pub use laws::{
    corners_of_paths, each_once, kept_directions, numbers_at_places, one_each, own_marks,
    plain_numbers,
};
