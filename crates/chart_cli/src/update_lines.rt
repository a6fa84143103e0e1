// The lines of updates.
ghost use Rattle.std.specs.Prelude.{◌≡◌, IfOk, string_bytes};
ghost use Rattle.chart_cli.specs.UpdateLines.{revised_line, update_at_text, update_name_text, update_refusal};

use std::alloc::{AllocError, Global};
use update_reader::UpdateFault;

/// The line of a cell of so many bytes that an update with so many records made.
pub(crate) fn line_of_revised(
    alloc: Global,
    records: usize,
    len: usize,
) -> Result<String, AllocError>
    ensures { IfOk result (λ s. string_bytes s ≡ revised_line records len) }
{
    format!(in alloc; "applied {records} records bytes {len}\n")
}

fn refused_at(alloc: Global, number: &str, at: usize) -> Result<String, AllocError>
    ensures { IfOk result (λ s. string_bytes s ≡ update_at_text number.now at) }
{
    format!(in alloc; "refused update {number} at {at}\n")
}

fn refused_name(alloc: Global, number: &str, rcnm: u8, rcid: u32) -> Result<String, AllocError>
    ensures { IfOk result (λ s. string_bytes s ≡ update_name_text number.now rcnm rcid) }
{
    format!(in alloc; "refused update {number} {rcnm} {rcid}\n")
}

/// The line of an update's refusal.
pub(crate) fn update_refusal_line(alloc: Global, fault: UpdateFault) -> Result<String, AllocError>
    ensures { IfOk result (λ s. string_bytes s ≡ update_refusal fault) }
{
    match fault {
        UpdateFault::Short(at) => refused_at(alloc, "1", at),
        UpdateFault::Leader(at) => refused_at(alloc, "2", at),
        UpdateFault::Directory(at) => refused_at(alloc, "3", at),
        UpdateFault::Field(at) => refused_at(alloc, "4", at),
        UpdateFault::Kind(at) => refused_at(alloc, "5", at),
        UpdateFault::Value(at) => refused_at(alloc, "6", at),
        UpdateFault::Sequence => String::from_str(alloc, "refused update 7\n"),
        UpdateFault::There(rcnm, rcid) => refused_name(alloc, "8", rcnm, rcid),
        UpdateFault::Missing(rcnm, rcid) => refused_name(alloc, "9", rcnm, rcid),
        UpdateFault::Version(rcnm, rcid) => refused_name(alloc, "10", rcnm, rcid),
        UpdateFault::Index(rcnm, rcid) => refused_name(alloc, "11", rcnm, rcid),
        UpdateFault::Shape(rcnm, rcid) => refused_name(alloc, "12", rcnm, rcid),
        UpdateFault::Lost(rcnm, rcid) => refused_name(alloc, "13", rcnm, rcid),
        UpdateFault::Unclosed(rcid) => format!(in alloc; "refused update 14 {rcid}\n"),
        UpdateFault::Large => String::from_str(alloc, "refused update 15\n"),
        UpdateFault::NoMemory => Ok(String::new(alloc)),
    }
}
