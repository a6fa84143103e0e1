//! Tests of cells that are written: of charts that were read, and of one made by hand.
#![tactic(auto)]

pub mod by_hand;
#[cfg(test)]
mod written;
