// Why bytes are no update of a chart.
ghost use Rattle.std.specs.Prelude.{◌≡◌};
ghost use Rattle.update_reader.specs.Faults.{of_codec, of_part};
ghost use Rattle.update_reader.specs.declared.fault.UpdateFault.TheVariants.{NoMemory};

use chart_model::PartFault;
use iso8211_codec::CodecFault;
use std::alloc::{AllocError, AllocFailed};

/// Why the bytes of a file are no update of a chart: the first cause, numbered 1 to 15 in the order of the variants.
///
/// The records are taken in the order of the file, each through `Short`, `Leader`, `Directory` and `Field`, then `Kind`,
/// then `Value`. When all were read there comes `Sequence`; then the changes are made in the order of the file, each
/// through `There`, `Missing`, `Version`, `Index` and `Shape`; then come `Lost`, `Unclosed` and `Large`. Offsets are those
/// of a record's first byte in the update, in bytes; names are an RCNM and a number.
#[derive(Clone, Copy, Debug, PartialEq, Eq)]
pub enum UpdateFault {
    /// Fewer bytes are left than a leader or than the record's length.
    Short(usize),
    /// The leader is none of a record that stands here, or places the field area outside the record.
    Leader(usize),
    /// The directory isn't whole entries and 0x1E, or its fields don't lie one after the other to the record's end.
    Directory(usize),
    /// A field other than NATF doesn't end with 0x1E.
    Field(usize),
    /// The record is of no kind that stands here, lacks a field that its kind has or has one twice that stands once; or,
    /// with the file's length, there is no data record.
    Kind(usize),
    /// A field isn't of its format to its end, or a value isn't one that an update may have.
    Value(usize),
    /// The update isn't the next one of the chart's edition.
    Sequence,
    /// A record is inserted that is there.
    There(u8, u32),
    /// A record is deleted or modified that isn't there.
    Missing(u8, u32),
    /// A record's version isn't the one that comes next.
    Version(u8, u32),
    /// The place or number of pointers, points or soundings isn't one that the record has, or isn't that of those given.
    Index(u8, u32),
    /// A modified record isn't one that a chart may have.
    Shape(u8, u32),
    /// The first pointer to nothing, once all changes were made.
    Lost(u8, u32),
    /// The number of the first area whose edges don't close, once all changes were made.
    Unclosed(u32),
    /// A record of the new chart would be longer than 99,999 bytes.
    Large,
    /// Memory was refused.
    NoMemory,
}

impl From<CodecFault> for UpdateFault {
    ghost from_gives = { λ fault e. e ≡ of_codec fault };

    fn from(fault: CodecFault) -> UpdateFault {
        match fault {
            CodecFault::Short(at) => UpdateFault::Short(at),
            CodecFault::Leader(at) => UpdateFault::Leader(at),
            CodecFault::Directory(at) => UpdateFault::Directory(at),
            CodecFault::Field(at) => UpdateFault::Field(at),
        }
    }
}

impl From<PartFault> for UpdateFault {
    ghost from_gives = { λ fault e. e ≡ of_part fault };

    fn from(fault: PartFault) -> UpdateFault {
        match fault {
            PartFault::Twice(rcnm, rcid) => UpdateFault::There(rcnm, rcid),
            PartFault::Lost(rcnm, rcid) => UpdateFault::Lost(rcnm, rcid),
            PartFault::Unclosed(rcid) => UpdateFault::Unclosed(rcid),
            PartFault::NoMemory => UpdateFault::NoMemory,
        }
    }
}

impl From<AllocError> for UpdateFault {
    ghost from_gives = { λ _ e. e ≡ NoMemory };

    fn from(_refused: AllocError) -> UpdateFault {
        UpdateFault::NoMemory
    }
}

impl<T: Drop> From<AllocFailed<T>> for UpdateFault {
    ghost from_gives = { λ _ e. e ≡ NoMemory };

    fn from(_refused: AllocFailed<T>) -> UpdateFault {
        UpdateFault::NoMemory
    }
}
