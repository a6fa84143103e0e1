//! Tests of crossings, and of the blocks of a mesh.
#![tactic(auto)]

#[cfg(test)]
mod blocks;
#[cfg(test)]
mod crossings;
