// A key's value by its kind.
ghost use Rattle.std.specs.Prelude.{◌≡◌, ◌≤◌, ◌^◌, ◌<◌, ℕ, Some, None, Ok, Err, List, length, IfOk, option_map};
ghost use Rattle.std.specs.List.{list_any};
ghost use Rattle.std.specs.Str.{bytes_eq};
ghost use Rattle.toml.specs.View.{view, table_view};
ghost use Rattle.toml.specs.Data.{get_member, as_integer, as_str};
ghost use Rattle.rule_sheet.specs.Keys.{name_of, keys_of, first_keys, is_known, all_known};
ghost use Rattle.rule_sheet.specs.Values.{Within};
ghost use Rattle.rule_sheet.specs.Rows.{value_of, number_of, ranged};
ghost use Rattle.rule_sheet.specs.Sheet.{Gives};

use crate::{Key, SheetFault};
use toml::{Table, Value};

// The value at a key.
pub fn found<'a>(table: &'a Table, key: Key) -> Option<&'a Value>
    ensures { option_map (λ v. view v.now) result ≡ get_member (name_of key) (table_view table.now) }
{
    match table.get(key.name()) {
        Some(value) => Some(value),
        None => None,
    }
}

fn integer(table: &Table, key: Key, default: Option<i64>) -> Result<i64, SheetFault>
    ensures { result ≡ value_of key as_integer default (table_view table.now) }
{
    match found(table, key) {
        Some(value) => value.as_integer().ok_or(SheetFault::Kind(key)),
        None => default.ok_or(SheetFault::Missing(key)),
    }
}

fn in_range(key: Key, low: u32, high: u32, z: i64) -> Result<u32, SheetFault>
    ensures value { result ≡ ranged key low high z }
    ensures within { IfOk result (Within low high) }
{
    if z < low as i64 || z > high as i64 {
        return Err(SheetFault::Range(key));
    }
    Ok(z as u32)
}

// The number of a key, from low to high.
pub fn number(
    table: &Table,
    key: Key,
    low: u32,
    high: u32,
    default: Option<i64>,
) -> Result<u32, SheetFault>
    ensures value { result ≡ number_of key low high default (table_view table.now) }
    ensures within { IfOk result (Within low high) }
{
    let z = integer(table, key, default)?;
    in_range(key, low, high, z)
}

// The text of a key.
pub fn text<'a>(table: &'a Table, key: Key) -> Result<&'a str, SheetFault>
    ensures { Gives (λ s. s.now) result (value_of key as_str None (table_view table.now)) }
{
    let value = found(table, key).ok_or(SheetFault::Missing(key))?;
    value.as_str().ok_or(SheetFault::Kind(key))
}

const KEYS: [Key; 17] = [
    Key::Version,
    Key::Positive,
    Key::Levels,
    Key::StepFrom,
    Key::Steps,
    Key::Aspect,
    Key::DiscRadius,
    Key::SoundingRadius,
    Key::Name,
    Key::Edition,
    Key::Issued,
    Key::Agency,
    Key::Scale,
    Key::Usage,
    Key::VerticalDatum,
    Key::SoundingDatum,
    Key::Catzoc,
];

fn is_key(keys: &[Key], name: &str) -> bool
    ensures { result ≡ is_known keys.now name.now }
{
    keys.iter().any(|key| name == key.name())
}

// Each name of the table is that of a key of this version.
pub fn knows_all(table: &Table, version: u32) -> bool
    ensures { result ≡ all_known (keys_of version) (table_view table.now) }
{
    let keys = if version == 2 { &KEYS[..] } else { &KEYS[..16] };
    for (name, _) in table {
        if !is_key(keys, name) {
            return false;
        }
    }
    true
}
