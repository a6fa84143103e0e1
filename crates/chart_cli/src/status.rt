// How a run ends.

/// How a run ends. The program's exit status is 0 to 4 in this order.
#[derive(Clone, Copy, Debug, PartialEq, Eq)]
pub enum Status {
    /// What the words ask for was done, and its lines were put out.
    Done,
    /// An input isn't valid or is too large, and the line that says so was put out.
    Refused,
    /// The words are no command, and the line that says so was put out.
    Usage,
    /// A device failed, or an input that is asked for isn't there.
    Device,
    /// Memory ran out.
    NoMemory,
}
