// A whole update file.
ghost use Rattle.std.specs.Prelude.{◌≤◌, length, IfOk};
ghost use Rattle.iso8211_codec.specs.Views.{to_come};
ghost use Rattle.update_reader.specs.Faults.{Gives};
ghost use Rattle.update_reader.specs.Reading.{first_issue, changes_in, update_in, update_reading};
ghost use Rattle.update_reader.specs.Sound.{IsReadUpdate, IsSoundIssue};

use crate::change::{Change, Issue, Update};
use crate::fault::UpdateFault;
use crate::record::{change_in, data_set};
use chart_model::Items;
use iso8211_codec::{Field, Records, record_laws};
use record_values::{VectorGroups, list_fields};
use std::alloc::Global;

/// What the first data record says, in a file of so many bytes.
fn first_issue<'a>(
    alloc: Global,
    size: usize,
    records: &mut Records<'a>,
    fields: &mut Vec<Field<'a>>,
) -> Result<Issue, UpdateFault>
    ensures gives { Gives (λ issue. (issue, to_come records.new)) result (first_issue size (to_come records.old)) }
    ensures texts { IfOk result IsSoundIssue }
{
    let Some(answer) = records.next_rec() else {
        return Err(UpdateFault::Kind(size));
    };
    let record = answer?;
    list_fields(&record, fields)?;
    data_set(alloc, record.at(), fields)
}

/// The changes of the records to come.
fn changes_in<'a>(
    alloc: Global,
    records: &mut Records<'a>,
    fields: &mut Vec<Field<'a>>,
) -> Result<Vec<Change>, UpdateFault>
    ensures { Gives (λ changes. changes.items) result (changes_in (to_come records.old)) }
{
    let mut changes = Vec::new(alloc);
    let mut groups = VectorGroups::new(alloc);
    while let Some(answer) = records.next_rec() {
        let record = answer?;
        list_fields(&record, fields)?;
        let change = change_in(alloc, record.at(), fields, &mut groups)?;
        changes.push(change)?;
    }
    Ok(changes)
}

/// The update of all records of a file of so many bytes.
fn update_in(alloc: Global, size: usize, records: &mut Records<'_>) -> Result<Update, UpdateFault>
    ensures gives { Gives (λ u. u) result (update_in size (to_come records.old)) }
    ensures texts { IfOk result (λ u. IsSoundIssue u.issue) }
{
    let mut fields = Vec::new(alloc);
    let issue = first_issue(alloc, size, records, &mut fields)?;
    let changes = changes_in(alloc, records, &mut fields)?;
    Ok(Update {
        issue,
        changes: Items::over(changes),
    })
}

/// What the bytes of an update file say (S-57 Edition 3.1, Part 3, 8, over ISO/IEC 8211), or the first of the faults `Short`
/// to `Value`.
///
/// The bytes, at most 67,108,864, are read to their end. The counts that the file states of itself aren't looked at, nor are
/// fields that no rule here names.
#[tactic(auto, unfolding(crate::specs::Reading::update_reading))]
pub fn read_update(alloc: Global, bytes: &[u8]) -> Result<Update, UpdateFault>
    requires { length bytes.now ≤ 67108864 }
    ensures gives { Gives (λ u. u) result (update_reading bytes.now) }
    ensures read { IfOk result (IsReadUpdate (length bytes.now)) }
{
    record_laws();
    let mut records = Records::new(bytes)?;
    update_in(alloc, bytes.len(), &mut records)
}
