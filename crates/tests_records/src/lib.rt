//! Tests of cells as bytes: records and fields, by worked bytes.
#![tactic(auto)]

#[cfg(test)]
mod codec;
#[cfg(test)]
mod fields;
