// An edge on a ring, and a ring.
use chart_model::Items;

/// An edge on a ring by its number, in its own direction or back.
#[derive(Clone, Copy, Debug, PartialEq, Eq)]
pub struct Part {
    /// The number of the edge, counted from 0.
    pub arc: u32,
    /// Whether the walk takes it in its own direction.
    pub forward: bool,
}

/// A closed walk along edges, with a face or a set of faces on the right, that passes no point twice. It is exterior
/// where it runs clockwise, and otherwise runs round a hole.
#[derive(Drop)]
pub struct Ring {
    pub exterior: bool,
    pub parts: Items<Part>,
}
