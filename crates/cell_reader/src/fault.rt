// Why bytes are no cell.
ghost use Rattle.std.specs.Prelude.{◌≡◌};
ghost use Rattle.cell_reader.specs.Faults.{of_codec, of_part};
ghost use Rattle.cell_reader.specs.declared.fault.CellFault.TheVariants.{NoMemory};

use chart_model::PartFault;
use iso8211_codec::CodecFault;
use std::alloc::{AllocError, AllocFailed};

/// Why the bytes of a file are no cell: the first cause, numbered 1 to 10 in the order of the variants.
///
/// The records are taken in the order of the file, each through `Short`, `Leader`, `Directory` and `Field`, then `Kind`,
/// then `Value`. When all were read there come `Kind` for a record that is missing, `Twice`, `Lost`, `Unclosed` and
/// `Count`. Offsets are those of a record's first byte in the file, in bytes.
#[derive(Clone, Copy, Debug, PartialEq, Eq)]
pub enum CellFault {
    /// Fewer bytes are left than a leader or than the record's length.
    Short(usize),
    /// The leader is none of a record that stands here, or places the field area outside the record.
    Leader(usize),
    /// The directory isn't whole entries and 0x1E, or its fields don't lie one after the other to the record's end.
    Directory(usize),
    /// A field other than NATF doesn't end with 0x1E.
    Field(usize),
    /// The record is of no kind that is read, lacks a field that its kind has, has one twice that stands once, or is a
    /// second data set or parameter record; or, with the file's length, the file lacks one of these two.
    Kind(usize),
    /// A field isn't of its format to its end, or a value isn't one that a chart here may have.
    Value(usize),
    /// The RCNM and the number that the first pointer to nothing names.
    Lost(u8, u32),
    /// The RCNM and the number of the first record whose number stood before in its list.
    Twice(u8, u32),
    /// The number of the first area whose edges don't close.
    Unclosed(u32),
    /// A count of the data set record isn't the number of records: 1 for isolated nodes, 2 for connected nodes, 3 for
    /// edges, 4 for features; the number stated, and the number found.
    Count(u8, u64, u64),
    /// Memory was refused.
    NoMemory,
}

impl From<CodecFault> for CellFault {
    ghost from_gives = { λ fault e. e ≡ of_codec fault };

    fn from(fault: CodecFault) -> CellFault {
        match fault {
            CodecFault::Short(at) => CellFault::Short(at),
            CodecFault::Leader(at) => CellFault::Leader(at),
            CodecFault::Directory(at) => CellFault::Directory(at),
            CodecFault::Field(at) => CellFault::Field(at),
        }
    }
}

impl From<PartFault> for CellFault {
    ghost from_gives = { λ fault e. e ≡ of_part fault };

    fn from(fault: PartFault) -> CellFault {
        match fault {
            PartFault::Twice(rcnm, rcid) => CellFault::Twice(rcnm, rcid),
            PartFault::Lost(rcnm, rcid) => CellFault::Lost(rcnm, rcid),
            PartFault::Unclosed(rcid) => CellFault::Unclosed(rcid),
            PartFault::NoMemory => CellFault::NoMemory,
        }
    }
}

impl From<AllocError> for CellFault {
    ghost from_gives = { λ _ e. e ≡ NoMemory };

    fn from(_refused: AllocError) -> CellFault {
        CellFault::NoMemory
    }
}

impl<T: Drop> From<AllocFailed<T>> for CellFault {
    ghost from_gives = { λ _ e. e ≡ NoMemory };

    fn from(_refused: AllocFailed<T>) -> CellFault {
        CellFault::NoMemory
    }
}
