// Places of words.

/// Where a word of a text begins and ends.
#[derive(Clone, Copy)]
pub(crate) struct Span {
    pub begin: usize,
    pub end: usize,
}
