// Why a text is no grid.
ghost use Rattle.std.specs.Prelude.{◌≡◌};
ghost use Rattle.grid_reader.specs.declared.fault.GridFault.TheVariants.{NoMemory};

use crate::GridKey;
use std::alloc::{AllocError, AllocFailed};
use thiserror::Error;

/// Why a text is no grid. Places are byte offsets of words.
#[derive(Clone, Copy, Debug, PartialEq, Eq, Error)]
pub enum GridFault {
    /// A word in a key's place is no key, no number and not `nan`.
    #[error("the word at byte {0} is no key")]
    Header(usize),
    /// The header has no such key.
    #[error("the key `{0}` is missing")]
    Missing(GridKey),
    /// A key stands a second time.
    #[error("the key at byte {0} stands a second time")]
    Repeated(usize),
    /// A value isn't of its kind; at the text's length, it isn't there.
    #[error("the word at byte {0} is no value")]
    Number(usize),
    /// The text ends after so many value words.
    #[error("only {0} values")]
    TooFew(usize),
    /// A word follows the last node's value.
    #[error("a word at byte {0} follows the last value")]
    Trailing(usize),
    /// A side isn't a whole number of nodes from 2 to 1,025.
    #[error("`{0}` is not a whole number from 2 to 1025")]
    Side(GridKey),
    /// The cell size isn't from 0.00001 to 1 degree.
    #[error("the cell size is not from 0.00001 to 1 degree")]
    CellSize,
    /// A node lies beyond 180 degrees of longitude or 90 of latitude.
    #[error("a node lies beyond the earth's degrees")]
    Position,
    /// A depth is beyond 12,000 metres.
    #[error("the depth at byte {0} is beyond 12000 metres")]
    Depth(usize),
    /// Memory ran out.
    #[error("out of memory")]
    NoMemory,
}

impl From<AllocError> for GridFault {
    ghost from_gives = { λ _ e. e ≡ NoMemory };

    fn from(_refused: AllocError) -> GridFault {
        GridFault::NoMemory
    }
}

impl<T: Drop> From<AllocFailed<T>> for GridFault {
    ghost from_gives = { λ _ e. e ≡ NoMemory };

    fn from(_refused: AllocFailed<T>) -> GridFault {
        GridFault::NoMemory
    }
}
