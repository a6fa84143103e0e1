//! Tests of numbers.
#![tactic(auto)]

#[cfg(test)]
mod numbers;
