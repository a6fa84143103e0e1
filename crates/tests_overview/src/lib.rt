//! Tests of overviews of grids and of the words of their depths, with answers worked out by hand.
#![tactic(auto)]

#[cfg(test)]
mod depth_words;
#[cfg(test)]
mod overviews;
