//! Tests of what a sheet's values are, and of the sample grid and the sample sheet.
#![tactic(auto)]

#[cfg(test)]
mod samples;
#[cfg(test)]
mod sheets;
