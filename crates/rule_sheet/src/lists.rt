// Lists of integers: how they are read, and what is tested of them.
ghost use Rattle.std.specs.Prelude.{◌≡◌, ◌<◌, ◌≤◌, ◌≤ℤ◌, ◌^◌, ℕ, ℤ, pos, neg_ℤ, true, false, Some, None, Ok, List, length, All, option_map, option_copied, IfOk, int_rem};
ghost use Rattle.std.specs.List.{list_all};
ghost use Rattle.std.specs.Ordering.{int_eq};
ghost use Rattle.toml.specs.View.{view, table_view, items_view};
ghost use Rattle.depth_rounding.specs.Steps.{is_step};
ghost use Rattle.rule_sheet.specs.Rows.{value_of, there, as_integers, integers_in, all_between, rises, are_multiples, steps_fit};
ghost use Rattle.rule_sheet.specs.Sheet.{Gives};

use crate::rows::found;
use crate::{Key, SheetFault};
use std::alloc::{AllocError, Global};
use toml::{Table, Value};

// The integers of an array, where each item is one.
fn integers_of(alloc: Global, items: &[Value]) -> Result<Option<Vec<i64>>, AllocError>
    ensures { IfOk result (λ o. option_map (λ v. v.items) o ≡ integers_in (items_view items.now)) }
{
    let mut numbers = Vec::with_capacity(alloc, items.len())?;
    for value in items {
        let Some(z) = value.as_integer() else {
            return Ok(None);
        };
        numbers.push(z)?;
    }
    Ok(Some(numbers))
}

fn array_of(alloc: Global, key: Key, value: &Value) -> Result<Vec<i64>, SheetFault>
    ensures { Gives (λ v. v.items) result (there (SheetFault.Kind key) (as_integers (view value.now))) }
{
    let items = value.as_array().ok_or(SheetFault::Kind(key))?;
    integers_of(alloc, items)?.ok_or(SheetFault::Kind(key))
}

// The integers of a key, or their default.
pub fn integers(
    alloc: Global,
    table: &Table,
    key: Key,
    default: Option<&[i64]>,
) -> Result<Vec<i64>, SheetFault>
    ensures { Gives (λ v. v.items) result (value_of key as_integers (option_copied default.entry) (table_view table.now)) }
{
    if let Some(value) = found(table, key) {
        return array_of(alloc, key, value);
    }
    let default = default.ok_or(SheetFault::Missing(key))?;
    Ok(Vec::from_slice(alloc, default)?)
}

// The same integers in 32 bits.
pub fn narrow(alloc: Global, zs: &[i64]) -> Result<Vec<i32>, AllocError>
    requires { All (λ z. (neg_ℤ (pos 120000) ≤ℤ z) × (z ≤ℤ pos 120000)) zs.now }
    ensures { IfOk result (λ v. v.items ≡ zs.now) }
{
    let mut numbers = Vec::with_capacity(alloc, zs.len())?;
    for z in zs {
        numbers.push(*z as i32)?;
    }
    Ok(numbers)
}

pub fn are_between(low: i64, high: i64, zs: &[i64]) -> bool
    ensures { result ≡ all_between low high zs.now }
{
    zs.iter().all(|z| low <= *z && *z <= high)
}

// Each is above the one before it.
pub fn rise(zs: &[i64]) -> bool
    ensures { result ≡ rises zs.now }
{
    let Some((first, rest)) = zs.split_first() else {
        return true;
    };
    let mut last = *first;
    for z in rest {
        if *z <= last {
            return false;
        }
        last = *z;
    }
    true
}

pub fn are_steps(zs: &[i64]) -> bool
    ensures { result ≡ list_all is_step zs.now }
{
    zs.iter()
        .all(|z| matches!(*z, 1 | 2 | 5 | 10 | 20 | 50 | 100))
}

fn is_multiple(z: i64, step: i64) -> bool
    requires positive { pos 1 ≤ℤ step }
    requires small { step ≤ℤ pos 100 }
    ensures { result ≡ int_eq (int_rem z step) (pos 0) }
{
    z % step == 0
}

// There is one step more than depths, and each depth is a multiple of the step that begins there.
pub fn fit(step_from: &[i64], steps: &[i64]) -> bool
    requires { list_all is_step steps.now ≡ true }
    ensures { result ≡ steps_fit step_from.now steps.now }
{
    if steps.len() != step_from.len() + 1 {
        return false;
    }
    for (k, depth) in step_from.iter().enumerate() {
        if !is_multiple(*depth, steps[k + 1]) {
            return false;
        }
    }
    true
}
