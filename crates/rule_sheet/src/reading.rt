// A whole sheet from a text.
ghost use Rattle.std.specs.Prelude.{◌≡◌, Ok, IfOk, IsErrOf};
ghost use Rattle.toml.specs.Data.{Members};
ghost use Rattle.toml.specs.View.{table_view};
ghost use Rattle.rule_sheet.specs.Values.{SheetView};
ghost use Rattle.rule_sheet.specs.Sheet.{StandsFor, Reads, Gives, sheet_of, IsTomlOrMemory};
ghost use Rattle.rule_sheet.specs.Views.{sheet_view};

use crate::parts::{bands, catzoc, cell_name, disc, issued, levels, radii, sense};
use crate::rows::{knows_all, number};
use crate::{Key, Sheet, SheetFault};
use std::alloc::Global;
use toml::Table;

#[tactic(auto, unfolding(crate::specs::Sheet::sheet_of))]
fn sheet_from(alloc: Global, table: &Table) -> Result<Sheet, SheetFault>
    ensures { Gives sheet_view result (sheet_of (table_view table.now)) }
{
    let version = number(table, Key::Version, 1, 2, None)?;
    let positive = sense(table)?;
    let levels = levels(alloc, table)?;
    let bands = bands(alloc, table)?;
    let disc = disc(table)?;
    let radii = radii(alloc, table, disc.aspect, levels.count())?;
    let (name, name_len) = cell_name(table)?;
    let edition = number(table, Key::Edition, 1, 999, None)? as u16;
    let issued = issued(table)?;
    let agency = number(table, Key::Agency, 1, 65_535, None)? as u16;
    let scale = number(table, Key::Scale, 1, 100_000_000, None)?;
    let usage = number(table, Key::Usage, 1, 6, None)? as u8;
    let vertical_datum = number(table, Key::VerticalDatum, 1, 254, None)? as u8;
    let sounding_datum = number(table, Key::SoundingDatum, 1, 254, None)? as u8;
    let catzoc = catzoc(table, version)?;
    if !knows_all(table, version) {
        return Err(SheetFault::Unknown);
    }
    Ok(Sheet {
        positive,
        levels,
        bands,
        disc,
        radii,
        name,
        name_len,
        edition,
        issued,
        agency,
        scale,
        usage,
        vertical_datum,
        sounding_datum,
        catzoc,
    })
}

/// The sheet that a text in TOML stands for, or the first thing that keeps it from being one.
///
/// Keys are tested in the order of `Key`, each for `Missing`, `Kind`, `Range` and `Order` in turn,
/// and a default like a value that stands; then comes `Unknown`.
pub fn read_sheet(alloc: Global, text: &[u8]) -> Result<Sheet, SheetFault>
    ensures sheet { IfOk result (λ s. StandsFor text.now (sheet_view s)) }
    ensures stands { (sheet : SheetView) → StandsFor text.now sheet → Gives sheet_view result (Ok sheet) }
    ensures exact { (table : Members) → Reads text.now table → Gives sheet_view result (sheet_of table) }
    ensures toml { IsErrOf result SheetFault.Toml → (table : Members) → Reads text.now table → ⊥ }
    ensures only { ((table : Members) → Reads text.now table → ⊥) → IsTomlOrMemory result }
{
    let table = match toml::table_from_slice(alloc, text) {
        Ok(table) => table,
        Err(error) if error.is_memory() => return Err(SheetFault::NoMemory),
        Err(_) => return Err(SheetFault::Toml),
    };
    sheet_from(alloc, &table)
}
