// Deeds in a table of records.
ghost use Rattle.std.specs.Prelude.{◌≡◌, ◌+◌, eqb};
ghost use Rattle.update_apply.specs.Making.{keyed, list_after, record_due};
ghost use Rattle.update_reader.specs.Faults.{Gives};
ghost use Rattle.update_reader.specs.declared.change.Deed.TheVariants.{Delete, Insert, Modify};

use crate::revised::Revised;
use record_table::Table;
use std::alloc::Global;
use update_reader::{Deed, Edit, UpdateFault};

/// Whether a version is the one that comes after another.
fn is_next_version(rver: u16, old: u16) -> bool
    ensures { result ≡ eqb rver (old + 1) }
{
    u32::from(rver) == u32::from(old) + 1
}

/// The record with a number, where the version that is to come is the one after its own.
fn due<'a, X: Revised>(table: &'a Table<X>, number: u32, rver: u16) -> Result<&'a X, UpdateFault>
    ensures { Gives (λ x. x.now) result (record_due (keyed X.rcnm X.number X.version X.edited) number rver table.now) }
{
    let Some(old) = table.get(number) else {
        return Err(UpdateFault::Missing(X::rcnm(), number));
    };
    if !is_next_version(rver, old.version()) {
        return Err(UpdateFault::Version(X::rcnm(), number));
    }
    Ok(old)
}

/// Inserts a record, of version 1, after all others. Where the answer is a fault the table is to be given up.
#[tactic(auto, unfolding(crate::specs::Making::list_after))]
fn insert<X: Revised>(alloc: Global, table: &mut Table<X>, new: &X) -> Result<(), UpdateFault>
    ensures { Gives (λ _. table.new) result (list_after (keyed X.rcnm X.number X.version X.edited) (Insert new.now) table.old) }
{
    let number = new.number();
    if table.get(number).is_some() {
        return Err(UpdateFault::There(X::rcnm(), number));
    }
    if new.version() != 1 {
        return Err(UpdateFault::Version(X::rcnm(), number));
    }
    let record = new.copied(alloc)?;
    table.push(record)?;
    Ok(())
}

/// Takes the record with a number out, where the version is the one after its own.
#[tactic(auto, unfolding(crate::specs::Making::list_after))]
fn delete<X: Revised>(table: &mut Table<X>, number: u32, rver: u16) -> Result<(), UpdateFault>
    ensures { Gives (λ _. table.new) result (list_after (keyed X.rcnm X.number X.version X.edited) (Delete number rver) table.old) }
{
    let _old = due(table, number, rver)?;
    table.remove(number);
    Ok(())
}

/// Changes the record with a number, where the version is the one after its own.
#[tactic(auto, unfolding(crate::specs::Making::list_after))]
fn modify<X: Revised>(
    alloc: Global,
    table: &mut Table<X>,
    number: u32,
    rver: u16,
    edit: &Edit,
) -> Result<(), UpdateFault>
    ensures { Gives (λ _. table.new) result (list_after (keyed X.rcnm X.number X.version X.edited) (Modify number rver edit.now) table.old) }
{
    let old = due(table, number, rver)?;
    let new = old.edited(alloc, rver, edit)?;
    table.replace(new);
    Ok(())
}

/// Does a deed. Where the answer is a fault the table is to be given up.
pub(crate) fn take<X: Revised>(
    alloc: Global,
    table: &mut Table<X>,
    deed: &Deed<X>,
) -> Result<(), UpdateFault>
    ensures { Gives (λ _. table.new) result (list_after (keyed X.rcnm X.number X.version X.edited) deed.now table.old) }
{
    match deed {
        Deed::Insert(new) => insert(alloc, table, new),
        Deed::Delete(number, rver) => delete(table, *number, *rver),
        Deed::Modify(number, rver, edit) => modify(alloc, table, *number, *rver, edit),
    }
}
