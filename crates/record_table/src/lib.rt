//! A table of numbered records that are kept in their order: a record is found, replaced and taken out by its number in
//! logarithmic time, and no other record is moved for it.
#![tactic(auto)]

ghost use Rattle.std.specs.Prelude.{◌≡◌, ◌≢◌, ◌++◌, ◌∷◌, [], ℕ, None, not, cond, map, filter, find, AllPairs, IfOk, OnOk, OnErr, option_copied};
ghost use Rattle.record_table.specs.Records.{is_numbered};

mod chart_records;

use std::alloc::{AllocError, Global};
use std::collections::BTreeMap;
use std::marker::Model;

/// A record that has a number, by which a table finds it.
pub trait Numbered: Drop {
    // the number
    ghost number: { Self → ℕ };

    /// The record's number.
    fn number(&self) -> u32
        ensures { result ≡ number self.now };
}

/// Records in their order, which clauses see as their list. No two of them have one number.
///
/// To find, replace or take out a record takes time logarithmic in the number of records, and moves no other
/// record. A record that was taken out leaves its slot empty until the table is given up.
#[derive(Drop)]
pub struct Table<X: Numbered> {
    // a record each, or none where it was taken out
    slots: Vec<Option<X>>,
    // the index of each record's slot, by its number
    places: BTreeMap<u32, usize>,
}

impl<X: Numbered> Model for Table<X> {
    ghost use Rattle.std.specs.Prelude.{List};
    ghost use Rattle.record_table.specs.Slots.{records_in, Leads, place_of};

    ghost Value = { List X };

    ghost view = { λ t. records_in t.slots.items };

    ghost invariant = { λ t. Leads X.number t.slots.items (place_of t.places) };
}

impl<X: Numbered> Table<X> {
    /// A table of these records, no two of which have one number.
    pub fn new(alloc: Global, records: Vec<X>) -> Result<Self, AllocError>
        requires { AllPairs ◌≢◌ (map X.number records.items) }
        ensures { IfOk result (λ table. table ≡ records.items) }
    {
        let mut table = Table {
            slots: Vec::with_capacity(alloc, records.len())?,
            places: BTreeMap::new(alloc),
        };
        for record in records {
            table.push(record)?;
        }
        Ok(table)
    }

    /// The record with a number, or `None` where there is none.
    pub fn get(&self, number: u32) -> Option<&X>
        ensures { option_copied result ≡ find (is_numbered X.number number) self.now }
    {
        let Some(place) = self.places.get(&number) else {
            return None;
        };
        self.slots[*place].as_ref()
    }

    /// Puts a record at the end. Its number may not be in the table. Where memory is refused, nothing changes.
    pub fn push(&mut self, item: X) -> Result<(), AllocError>
        requires { find (is_numbered X.number (X.number item)) self.old ≡ None }
        ensures ok { OnOk result (self.new ≡ self.old ++ item ∷ []) }
        ensures err { OnErr result (self.new ≡ self.old) }
    {
        let number = item.number();
        let place = self.slots.len();
        self.slots.push(Some(item))?;
        let Ok(_) = self.places.insert(number, place) else {
            self.slots.pop();
            return Err(AllocError);
        };
        Ok(())
    }

    /// Takes out the record with a number. Where there is none, nothing changes.
    pub fn remove(&mut self, number: u32)
        ensures { self.new ≡ filter (λ x. not (is_numbered X.number number x)) self.old }
    {
        let Some(place) = self.places.remove(&number) else {
            return;
        };
        self.slots[place] = None;
    }

    /// Puts a record in the place of the one with its number. Where there is none, nothing changes.
    pub fn replace(&mut self, item: X)
        ensures { self.new ≡ map (λ x. cond (is_numbered X.number (X.number item) x) item x) self.old }
    {
        let Some(place) = self.places.get(&item.number()) else {
            return;
        };
        let place = *place;
        self.slots[place] = Some(item);
    }

    /// The records, in their order. The table is given up.
    pub fn into_records(self, alloc: Global) -> Result<Vec<X>, AllocError>
        ensures { IfOk result (λ records. records.items ≡ self) }
    {
        let Table { slots, places } = self;
        let mut records = Vec::with_capacity(alloc, places.len())?;
        for slot in slots {
            if let Some(record) = slot {
                records.push(record)?;
            }
        }
        Ok(records)
    }
}
