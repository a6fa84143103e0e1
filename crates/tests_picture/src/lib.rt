//! Tests of pictures of charts.
#![tactic(auto)]

#[cfg(test)]
mod pictures;
