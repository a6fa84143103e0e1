// Which way values count.

/// Which way a grid's values are positive: down, as depths, or up, as heights.
#[derive(Clone, Copy, Debug, PartialEq, Eq)]
pub enum Sense {
    Down,
    Up,
}
