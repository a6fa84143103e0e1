//! The codes that fields hold (S-57 Edition 3.1: objects and attributes in Appendix A, the others in Part 3).

/// OBJL of a depth area.
pub const DEPARE: u16 = 42;
/// OBJL of a depth contour.
pub const DEPCNT: u16 = 43;
/// OBJL of soundings.
pub const SOUNDG: u16 = 129;
/// OBJL of an unsurveyed area.
pub const UNSARE: u16 = 154;
/// OBJL of the coverage of data.
pub const M_COVR: u16 = 302;
/// OBJL of the quality of data.
pub const M_QUAL: u16 = 308;

/// ATTL of the category of coverage.
pub const CATCOV: u16 = 18;
/// ATTL of the category of zone of confidence.
pub const CATZOC: u16 = 72;
/// ATTL of a depth range's least depth.
pub const DRVAL1: u16 = 87;
/// ATTL of a depth range's greatest depth.
pub const DRVAL2: u16 = 88;
/// ATTL of a depth contour's depth.
pub const VALDCO: u16 = 174;

/// RCNM of the data set record.
pub const DATA_SET: u8 = 10;
/// RCNM of the parameter record.
pub const PARAMETERS: u8 = 20;
/// RCNM of a feature.
pub const FEATURE: u8 = 100;
/// RCNM of an isolated node.
pub const ISOLATED_NODE: u8 = 110;
/// RCNM of a connected node.
pub const CONNECTED_NODE: u8 = 120;
/// RCNM of an edge.
pub const EDGE: u8 = 130;

/// PRIM of a point.
pub const POINT: u8 = 1;
/// PRIM of a line.
pub const LINE: u8 = 2;
/// PRIM of an area.
pub const AREA: u8 = 3;

/// GRUP of the skin of the earth, group 1: the areas that cover the ground without overlap.
pub const SKIN: u8 = 1;

/// ORNT where the edge is followed as it stands.
pub const FORWARD: u8 = 1;
/// ORNT where the edge is followed from its end.
pub const REVERSE: u8 = 2;

/// USAG on an exterior boundary.
pub const EXTERIOR: u8 = 1;
/// USAG on an interior boundary.
pub const INTERIOR: u8 = 2;
/// USAG on an exterior boundary that the data limit cuts.
pub const TRUNCATED: u8 = 3;

/// MASK of what isn't drawn.
pub const HIDDEN: u8 = 1;
/// MASK of what is drawn.
pub const SHOWN: u8 = 2;

/// TOPI of an edge's first node.
pub const BEGINNING: u8 = 1;
/// TOPI of an edge's last node.
pub const END: u8 = 2;

/// ORNT, USAG, TOPI or MASK where nothing is said (NULL), and PRIM of a feature with no place of its own.
pub const NULL: u8 = 255;

/// RUIN, FSUI or CCUI of what is inserted.
pub const INSERT: u8 = 1;
/// RUIN, FSUI or CCUI of what is deleted.
pub const DELETE: u8 = 2;
/// RUIN, FSUI or CCUI of what is modified.
pub const MODIFY: u8 = 3;

/// EXPP of an update, a revision of a data set.
pub const REVISION: u8 = 2;
/// DSTR of chain-node topology.
pub const CHAIN_NODE: u8 = 2;
/// DUNI of depths in metres.
pub const METRES: u8 = 1;
/// COUN of positions in degrees of latitude and longitude.
pub const DEGREES: u8 = 1;
/// COMF, how many parts of a degree positions count.
pub const DEGREE_PARTS: u32 = 10_000_000;
/// SOMF, how many parts of a metre depths count.
pub const METRE_PARTS: u32 = 10;
