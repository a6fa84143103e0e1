//! Tests of where points lie in a cell made by hand, by a `Locator` and in one pass.
#![tactic(auto)]

#[cfg(test)]
mod places;
