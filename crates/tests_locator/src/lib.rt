//! A `Locator` over the chart of the sample, asked for 120,000 points, beside the mesh of the same grid.
#![tactic(auto)]

#[cfg(test)]
mod locating;
