// Names of nodes.

/// A node of a grid: its row from the north and its column from the west, each from 0.
#[derive(Clone, Copy, Debug, PartialEq, Eq)]
pub struct NodeId {
    pub row: usize,
    pub col: usize,
}
