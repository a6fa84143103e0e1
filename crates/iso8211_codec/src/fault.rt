// What is wrong with a record.

/// Why the bytes of a file are no records of ISO/IEC 8211. Each fault holds the offset in bytes of the record's first
/// byte. A record's tests come in a fixed order: the rest of the file is no shorter than a leader, the leader, the
/// record's length against the rest of the file, the directory, the end of each field.
#[derive(Clone, Copy, Debug, PartialEq, Eq)]
pub enum CodecFault {
    /// Fewer bytes are left than a leader or than the record's length.
    Short(usize),
    /// The leader is none of a record that stands here, or places the field area outside the record.
    Leader(usize),
    /// The directory isn't whole entries and 0x1E, or its fields don't lie one after the other to the record's end.
    Directory(usize),
    /// A field other than NATF doesn't end with 0x1E.
    Field(usize),
}
