//! Tests of devices.
#![tactic(auto)]

#[cfg(test)]
mod devices;
#[cfg(test)]
mod real;
