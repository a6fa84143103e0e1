// Texts of depths and positions.
ghost use Rattle.std.specs.Prelude.{◌≡◌, IfOk, string_bytes};
ghost use Rattle.exact_num.specs.Printed.{decimetres, degrees};

use std::alloc::{AllocError, Global};

/// The text in metres of a value in decimetres: an optional `-`, whole metres without leading zeros, and where tenths
/// remain a point and one digit, as `10`, `10.1`, `-0.4` and `0`. Refuses only for want of memory.
#[tactic(auto, unfolding(crate::specs::Printed::decimetres))]
pub fn decimetres_text(alloc: Global, dm: i32) -> Result<String, AllocError>
    ensures { IfOk result (λ text. string_bytes text ≡ decimetres dm) }
{
    let sign = if dm < 0 { "-" } else { "" };
    let metres = dm.unsigned_abs() / 10;
    let tenths = dm.unsigned_abs() % 10;
    if tenths == 0 {
        return format!(in alloc; "{sign}{metres}");
    }
    format!(in alloc; "{sign}{metres}.{tenths}")
}

/// The text in degrees of a position in ten-millionths of a degree: an optional `-`, whole degrees without leading zeros,
/// a point and seven digits, as `-0.0000005`. Refuses only for want of memory.
pub fn degree_text(alloc: Global, units: i32) -> Result<String, AllocError>
    ensures { IfOk result (λ text. string_bytes text ≡ degrees units) }
{
    let sign = if units < 0 { "-" } else { "" };
    let whole = units.unsigned_abs() / 10_000_000;
    let part = units.unsigned_abs() % 10_000_000;
    format!(in alloc; "{sign}{whole}.{part:07}")
}
