//! Bytes under names, and bytes that are put out, behind traits that count their faults: `Shelf` and `Sink`.
//!
//! `HostShelf` and `HostOut` are real files and the standard output. `MemShelf` and `MemSink` lie in memory, and
//! their calls can be made to fail. `read_whole`, `append_all` and `put_all` work over any of them.
#![tactic(auto)]

mod calls;
mod host;
mod mem_shelf;
mod mem_sink;
mod reading;
mod shelf;
mod store;
mod writing;

pub use calls::CallKind;
pub use host::{HostOut, HostShelf};
pub use mem_shelf::MemShelf;
pub use mem_sink::MemSink;
pub use reading::{ReadFault, read_whole};
pub use shelf::{Failed, Shelf, Sink};
pub use writing::{append_all, put_all, write_whole};
