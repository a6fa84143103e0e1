/// The bytes of a record beside its fields and their entries: a leader of 24, and the 0x1E that ends the directory.
pub const FRAME_LEN: usize = 24 + 1;

/// The bytes of an entry that is written: a tag of four, and five digits each for the field's length and its position.
pub const ENTRY_LEN: usize = 4 + 5 + 5;

/// The entry map of a leader (ISO/IEC 8211): how many digits each entry of the directory has for the length of its field
/// and for its position.
#[derive(Clone, Copy, Debug)]
pub struct EntryMap {
    pub size_of_length: usize,
    pub size_of_position: usize,
}
