// The records of a chart.
use crate::Items;
use plane_geom::Point;

/// A sounding: its position, and its depth in decimetres below datum.
#[derive(Clone, Copy)]
pub struct Sounding {
    pub at: Point,
    pub depth: i32,
}

/// What stands at an isolated node: one position, or soundings.
#[derive(Drop)]
pub enum Shape {
    One(Point),
    Soundings(Items<Sounding>),
}

/// An isolated node: a place that no edge ends at. `rver` counts its versions.
#[derive(Drop)]
pub struct Isolated {
    pub rcid: u32,
    pub rver: u16,
    pub shape: Shape,
}

/// A connected node: a place where edges begin and end.
#[derive(Clone, Copy)]
pub struct Connected {
    pub rcid: u32,
    pub rver: u16,
    pub at: Point,
}

/// An edge from the connected node with the number `first` to the one with the number `last`, with the positions between.
#[derive(Drop)]
pub struct Edge {
    pub rcid: u32,
    pub rver: u16,
    pub first: u32,
    pub last: u32,
    pub inner: Items<Point>,
}

/// An attribute's code (ATTL) and its text (ATVL).
#[derive(Drop)]
pub struct Attribute {
    pub code: u16,
    pub text: Items<u8>,
}

/// A feature's pointer to a node or an edge: its RCNM and number, and ORNT, USAG and MASK.
#[derive(Clone, Copy)]
pub struct Pointer {
    pub rcnm: u8,
    pub rcid: u32,
    pub ornt: u8,
    pub usag: u8,
    pub mask: u8,
}

/// A feature: its number and version, PRIM, GRUP, object code (OBJL), its name among all producers (AGEN, FIDN, FIDS),
/// its attributes and its pointers.
#[derive(Drop)]
pub struct Feature {
    pub rcid: u32,
    pub rver: u16,
    pub prim: u8,
    pub grup: u8,
    pub objl: u16,
    pub agen: u16,
    pub fidn: u32,
    pub fids: u16,
    pub attributes: Items<Attribute>,
    pub pointers: Items<Pointer>,
}

/// What a cell says of itself: the subfields of DSID, DSSI and DSPM that are no counts and no units.
///
/// `note` is the comment of DSPM, `comt` that of DSID. `cscl` is the scale's denominator.
#[derive(Drop)]
pub struct Header {
    pub expp: u8,
    pub intu: u8,
    pub dsnm: Items<u8>,
    pub edtn: Items<u8>,
    pub updn: Items<u8>,
    pub uadt: [u8; 8],
    pub isdt: [u8; 8],
    pub sted: [u8; 4],
    pub prsp: u8,
    pub psdn: Items<u8>,
    pub pred: Items<u8>,
    pub prof: u8,
    pub agen: u16,
    pub comt: Items<u8>,
    pub aall: u8,
    pub nall: u8,
    pub hdat: u8,
    pub vdat: u8,
    pub sdat: u8,
    pub cscl: u32,
    pub huni: u8,
    pub puni: u8,
    pub note: Items<u8>,
}

/// All that a chart has, list by list.
#[derive(Drop)]
pub struct Parts {
    pub header: Header,
    pub isolated: Items<Isolated>,
    pub connected: Items<Connected>,
    pub edges: Items<Edge>,
    pub features: Items<Feature>,
}
