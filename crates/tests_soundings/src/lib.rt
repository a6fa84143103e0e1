//! Tests of generalised grids and of soundings, beside plain bodies and on large grids.
#![tactic(auto)]

#[cfg(test)]
mod discs;
#[cfg(test)]
mod grids;
#[cfg(test)]
mod selection;
