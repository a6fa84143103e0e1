//! The fields of S-57's records (Edition 3.1, Part 3), read from bodies and written as bytes.
//!
//! A body is a field's bytes without the closing 0x1E. Readers give values that borrow from the body and take no memory;
//! writers append the whole field with its 0x1E, or one group of a field that repeats, and leave the vector as it was
//! where memory is refused.
#![tactic(auto)]

mod attribute;
mod control;
mod cursor;
mod dsid;
mod dspm;
mod dssi;
mod feature;
mod groups;
mod law;
mod pointer;
mod put;
mod vrid;

pub use attribute::{first_attribute, push_attribute};
pub use control::{Fspc, Sgcc, read_fspc, read_sgcc, write_fspc, write_sgcc};
pub use dsid::{Dsid, read_dsid, write_dsid};
pub use dspm::{Dspm, read_dspm, write_dspm};
pub use dssi::{Dssi, read_dssi, write_dssi};
pub use feature::{Foid, Frid, read_foid, read_frid, write_foid, write_frid};
pub use groups::{fspt, push_fspt, push_sg2d, push_sg3d, push_vrpt, sg2d, sg3d, vrpt};
pub use law::field_laws;
pub use pointer::{Fspt, Vrpt};
pub use put::close;
pub use vrid::{Vrid, read_vrid, write_vrid};
