//! Tests of updates of cells, by worked bytes.
#![tactic(auto)]

#[cfg(test)]
mod faults;
