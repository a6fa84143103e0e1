//! Tests of the commands that need code or time: devices that fail, a cell whose areas' borders were exchanged, the largest
//! grid.
#![tactic(auto)]

#[cfg(test)]
mod applying;
#[cfg(test)]
mod borders;
#[cfg(test)]
mod compiling;
#[cfg(test)]
mod large;
#[cfg(test)]
mod saying;
