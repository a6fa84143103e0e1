//! The codes and tags of IHO S-57 Edition 3.1 that the program reads and writes: the one table of the code. The table of the
//! definitions, `specs/Catalogue.antt`, has the same numbers on its own account, and a law says that the two agree.
#![tactic(auto)]

pub mod code;
mod law;
pub mod tag;

pub use law::codes_are_the_catalogues;
