//! The tags of fields (S-57 Edition 3.1, Part 3, 7.3, 7.6 and 7.7).

/// The record identifier of ISO/IEC 8211.
pub const ID: [u8; 4] = *b"0001";
/// What the data set is.
pub const DSID: [u8; 4] = *b"DSID";
/// What the data set is made of.
pub const DSSI: [u8; 4] = *b"DSSI";
/// The units and datums of the data set.
pub const DSPM: [u8; 4] = *b"DSPM";
/// What a vector record is.
pub const VRID: [u8; 4] = *b"VRID";
/// Pointers of a vector record.
pub const VRPT: [u8; 4] = *b"VRPT";
/// How a vector record's pointers change.
pub const VRPC: [u8; 4] = *b"VRPC";
/// How a vector record's points change.
pub const SGCC: [u8; 4] = *b"SGCC";
/// Points.
pub const SG2D: [u8; 4] = *b"SG2D";
/// Soundings.
pub const SG3D: [u8; 4] = *b"SG3D";
/// What a feature record is.
pub const FRID: [u8; 4] = *b"FRID";
/// What a feature is among those of all agencies.
pub const FOID: [u8; 4] = *b"FOID";
/// Attributes of a feature.
pub const ATTF: [u8; 4] = *b"ATTF";
/// Pointers of a feature.
pub const FSPT: [u8; 4] = *b"FSPT";
/// How a feature's pointers change.
pub const FSPC: [u8; 4] = *b"FSPC";
