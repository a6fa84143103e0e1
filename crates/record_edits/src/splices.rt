// How the items of a list change where some go and others come at a place.
ghost use Rattle.std.specs.Prelude.{◌≡◌, IfOk, IsTrue, length, [], ◌∷◌};
ghost use Rattle.record_edits.specs.Splices.{can_splice, can_change, spliced, items_after};
ghost use Rattle.record_values.specs.Fields.{the_one};

use std::alloc::{AllocError, Global};
use update_reader::Splice;

/// Whether so many items can change so, with so many given.
fn can_splice(splice: Splice, count: usize, given: usize) -> bool
    ensures { result ≡ can_splice splice count given }
{
    let place = splice.place as usize;
    let going = splice.going as usize;
    let coming = splice.coming as usize;
    going + coming >= 1 && given == coming && place >= 1 && place - 1 + going <= count
}

/// Whether so many items can change so, with so many given; where no change is said, none may be given.
pub(crate) fn can_change(splice: Option<Splice>, count: usize, given: usize) -> bool
    ensures { result ≡ can_change splice count given }
{
    match splice {
        Some(splice) => can_splice(splice, count, given),
        None => given == 0,
    }
}

fn spliced<T: Copy>(
    alloc: Global,
    splice: Splice,
    given: &[T],
    items: &[T],
) -> Result<Vec<T>, AllocError>
    requires { IsTrue (can_splice splice (length items.now) (length given.now)) }
    ensures { IfOk result (λ v. v.items ≡ spliced splice given.now items.now) }
{
    let (before, rest) = items.split_at(splice.place as usize - 1);
    let (_, after) = rest.split_at(splice.going as usize);
    let kept = items.len() - splice.going as usize;
    let mut list = Vec::with_capacity(alloc, kept.saturating_add(given.len()))?;
    list.extend_from_slice(before)?;
    list.extend_from_slice(given)?;
    list.extend_from_slice(after)?;
    Ok(list)
}

/// The items after a change that can be, as a list of its own.
pub(crate) fn items_after<T: Copy>(
    alloc: Global,
    splice: Option<Splice>,
    given: &[T],
    items: &[T],
) -> Result<Vec<T>, AllocError>
    requires { IsTrue (can_change splice (length items.now) (length given.now)) }
    ensures { IfOk result (λ v. v.items ≡ items_after splice given.now items.now) }
{
    match splice {
        Some(splice) => spliced(alloc, splice, given, items),
        None => Vec::from_slice(alloc, items),
    }
}

/// The one item that is left of one item by a change that can be; None where there is none, or more than one. It takes no
/// memory.
pub(crate) fn the_one_after<T: Copy>(splice: Option<Splice>, given: &[T], item: T) -> Option<T>
    requires { IsTrue (can_change splice 1 (length given.now)) }
    ensures { result ≡ the_one (items_after splice given.now (item ∷ [])) }
{
    match splice {
        None => Some(item),
        Some(splice) if splice.going == 0 => None,
        Some(_) => match given {
            [one] => Some(*one),
            _ => None,
        },
    }
}
