//! Tests of rounding, bands, discs and the raster of positions.
#![tactic(auto)]

#[cfg(test)]
mod rounding;
