//! Records of ISO/IEC 8211: their fields as slices of the file, and records as bytes.
#![tactic(auto)]

mod bytes;
mod digits;
mod directory;
mod entry_map;
mod fault;
mod fields;
mod first;
mod law;
mod leader;
mod record;
mod walk;
mod writing;

pub use bytes::put;
pub use entry_map::{ENTRY_LEN, FRAME_LEN};
pub use fault::CodecFault;
pub use first::{FIRST_LEN, write_first};
pub use law::record_laws;
pub use record::{Field, RawRec, Records, Tag};
pub use writing::{record_len, write_rec};
