// The rows of a sheet that are more than a number.
ghost use Rattle.std.specs.Prelude.{◌≡◌, ◌≤◌, ℕ, ℤ, pos, true, Some, None, Ok, List, length, take, map, unsigned_abs, IfOk, IsTrue, All, ◌≤ℤ◌, ◌||◌};
ghost use Rattle.std.specs.List.{list_all};
ghost use Rattle.std.specs.Char.{is_ascii_digit, is_ascii_uppercase};
ghost use Rattle.toml.specs.View.{table_view};
ghost use Rattle.depth_rounding.specs.Views.{levels_view, from_view, steps_view};
ghost use Rattle.rule_sheet.specs.Values.{is_cell_name, is_day};
ghost use Rattle.rule_sheet.specs.Rows.{levels_of, step_from_of, steps_of, radii_of, sense_of, cell_name_of, issued_of, catzoc_of};
ghost use Rattle.rule_sheet.specs.Sheet.{Gives, disc_of, step_lists_of};

use crate::lists::{are_between, are_steps, fit, integers, narrow, rise};
use crate::rows::{number, text};
use crate::{Key, Sense2, SheetFault};
use depth_grid::{Radii, Reach};
use depth_rounding::{Bands, Levels};
use std::alloc::Global;
use toml::Table;

pub fn sense(table: &Table) -> Result<Sense2, SheetFault>
    ensures { Gives (λ sense. sense) result (sense_of (table_view table.now)) }
{
    match text(table, Key::Positive)? {
        "down" => Ok(Sense2::Down),
        "up" => Ok(Sense2::Up),
        _ => Err(SheetFault::Range(Key::Positive)),
    }
}

pub fn levels(alloc: Global, table: &Table) -> Result<Levels, SheetFault>
    ensures { Gives levels_view result (levels_of (table_view table.now)) }
{
    let zs = integers(alloc, table, Key::Levels, None)?;
    if zs.len() > 20 || !are_between(-119_999, 119_999, &zs) {
        return Err(SheetFault::Range(Key::Levels));
    }
    if !rise(&zs) {
        return Err(SheetFault::Order(Key::Levels));
    }
    Ok(Levels::new(&narrow(alloc, &zs)?))
}

// The depths at which further steps begin.
fn step_from(alloc: Global, table: &Table) -> Result<Vec<i64>, SheetFault>
    ensures { Gives (λ v. v.items) result (step_from_of (table_view table.now)) }
{
    let zs = integers(alloc, table, Key::StepFrom, Some(&[210, 310]))?;
    if zs.len() > 8 || !are_between(-120_000, 120_000, &zs) {
        return Err(SheetFault::Range(Key::StepFrom));
    }
    if !rise(&zs) {
        return Err(SheetFault::Order(Key::StepFrom));
    }
    Ok(zs)
}

fn steps(alloc: Global, table: &Table, step_from: &[i64]) -> Result<Vec<i64>, SheetFault>
    ensures { Gives (λ v. v.items) result (steps_of step_from.now (table_view table.now)) }
{
    let zs = integers(alloc, table, Key::Steps, Some(&[1, 5, 10]))?;
    if zs.is_empty() || zs.len() > 9 || !are_steps(&zs) {
        return Err(SheetFault::Range(Key::Steps));
    }
    if !fit(step_from, &zs) {
        return Err(SheetFault::Order(Key::Steps));
    }
    Ok(zs)
}

pub fn bands(alloc: Global, table: &Table) -> Result<Bands, SheetFault>
    ensures { Gives (λ b. record { step_from = from_view b; steps = steps_view b }) result (step_lists_of (table_view table.now)) }
{
    let step_from = step_from(alloc, table)?;
    let steps = steps(alloc, table, &step_from)?;
    let depths = narrow(alloc, &step_from)?;
    let lengths = narrow(alloc, &steps)?;
    Ok(Bands::new(&depths, &lengths))
}

// The disc in which depths are generalised.
pub fn disc(table: &Table) -> Result<Reach, SheetFault>
    ensures { result ≡ disc_of (table_view table.now) }
{
    let aspect = number(table, Key::Aspect, 100, 1000, Some(1000))?;
    let radius = number(table, Key::DiscRadius, 0, 64_000, Some(0))?;
    Ok(Reach { aspect, radius })
}

// The radii, and then zeros.
fn radii_front(zs: &[i64]) -> [u32; 21]
    requires few { length zs.now ≤ 21 }
    requires between { All (λ z. (pos 0 ≤ℤ z) × (z ≤ℤ pos 64000)) zs.now }
    ensures { take (length zs.now) result ≡ map unsigned_abs zs.now }
{
    let mut front = [0; 21];
    for (k, z) in zs.iter().enumerate() {
        front[k] = z.unsigned_abs() as u32;
    }
    front
}

// One radius for every band, or one for each, where there are so many levels.
pub fn radii(alloc: Global, table: &Table, aspect: u32, levels: u32) -> Result<Radii, SheetFault>
    ensures value { Gives (λ r. take r.count r.radius) result (radii_of levels (table_view table.now)) }
    ensures aspect { IfOk result (λ r. r.aspect ≡ aspect) }
    ensures fit { IfOk result (λ r. r.count ≤ 21) }
{
    let zs = integers(alloc, table, Key::SoundingRadius, None)?;
    if zs.is_empty() || zs.len() > 21 || !are_between(0, 64_000, &zs) {
        return Err(SheetFault::Range(Key::SoundingRadius));
    }
    if zs.len() != 1 && zs.len() != levels as usize + 1 {
        return Err(SheetFault::Order(Key::SoundingRadius));
    }
    Ok(Radii {
        aspect,
        count: zs.len(),
        radius: radii_front(&zs),
    })
}

// The bytes, and then zeros.
fn bytes_front(bytes: &[u8]) -> [u8; 8]
    requires { length bytes.now ≤ 8 }
    ensures { take (length bytes.now) result ≡ bytes.now }
{
    let mut front = [0; 8];
    front[..bytes.len()].copy_from_slice(bytes);
    front
}

fn are_capitals_or_digits(bytes: &[u8]) -> bool
    ensures { result ≡ list_all (λ byte. is_ascii_uppercase byte || is_ascii_digit byte) bytes.now }
{
    bytes
        .iter()
        .all(|byte| byte.is_ascii_uppercase() || byte.is_ascii_digit())
}

fn are_digits(bytes: &[u8]) -> bool
    ensures { result ≡ list_all is_ascii_digit bytes.now }
{
    bytes.iter().all(|byte| byte.is_ascii_digit())
}

// 1 to 8 capital letters and digits.
fn is_cell_name(bytes: &[u8]) -> bool
    ensures value { result ≡ is_cell_name bytes.now }
    ensures short { IsTrue result → length bytes.now ≤ 8 }
{
    1 <= bytes.len() && bytes.len() <= 8 && are_capitals_or_digits(bytes)
}

// The cell's name and how many bytes it has.
pub fn cell_name(table: &Table) -> Result<([u8; 8], usize), SheetFault>
    ensures value { Gives (λ p. take p.1 p.0) result (cell_name_of (table_view table.now)) }
    ensures fits { IfOk result (λ p. p.1 ≤ 8) }
{
    let name = text(table, Key::Name)?.as_bytes();
    if !is_cell_name(name) {
        return Err(SheetFault::Range(Key::Name));
    }
    Ok((bytes_front(name), name.len()))
}

// Eight digits.
fn is_day(bytes: &[u8]) -> bool
    ensures value { result ≡ is_day bytes.now }
    ensures eight { IsTrue result → length bytes.now ≡ 8 }
{
    bytes.len() == 8 && are_digits(bytes)
}

// The day of issue.
pub fn issued(table: &Table) -> Result<[u8; 8], SheetFault>
    ensures { Gives (λ day. day) result (issued_of (table_view table.now)) }
{
    let day = text(table, Key::Issued)?.as_bytes();
    if !is_day(day) {
        return Err(SheetFault::Range(Key::Issued));
    }
    Ok(bytes_front(day))
}

// The category of zone of confidence. Only version 2 has one.
pub fn catzoc(table: &Table, version: u32) -> Result<Option<u8>, SheetFault>
    ensures { result ≡ catzoc_of version (table_view table.now) }
{
    if version == 2 {
        Ok(Some(number(table, Key::Catzoc, 1, 6, None)? as u8))
    } else {
        Ok(None)
    }
}
