//! Where a point lies in a chart.
#![tactic(auto)]

mod answer;
mod areas;
mod buckets;
mod location;
mod owners;
mod sides;
mod single;
mod split;
mod strips;

pub use answer::Place;
pub use chart_model::Items;
pub use location::Locator;
pub use single::place_at;
