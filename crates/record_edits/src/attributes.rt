// How the attributes of a feature change.
ghost use Rattle.std.specs.Prelude.{◌≡◌, IfOk, OnOk, eqb, position};
ghost use Rattle.std.specs.Str.{bytes_eq};
ghost use Rattle.record_edits.specs.Attributes.{deleting_text, with_attribute, without_attribute, attributes_after_one, attributes_after};

use crate::copies::{copied_attribute, copied_attributes};
use chart_model::Attribute;
use std::alloc::{AllocError, Global};

/// The delete character of attributes' texts.
const DELETE_CHARACTER: u8 = 0x7F;

/// The place of the first attribute with a code.
fn place_of(list: &[Attribute], code: u16) -> Option<usize>
    ensures { result ≡ position (λ a. eqb a.code code) list.now }
{
    list.iter().position(|a| a.code == code)
}

/// Gives the first attribute with its code this text, or puts it at the end where there is none.
fn put(list: &mut Vec<Attribute>, attribute: Attribute) -> Result<(), AllocError>
    ensures { OnOk result (list.new.items ≡ with_attribute attribute list.old.items) }
{
    match place_of(list, attribute.code) {
        Some(k) => list[k] = attribute,
        None => list.push(attribute)?,
    }
    Ok(())
}

/// Takes the first attribute with a code out, where there is one.
fn take_out(list: &mut Vec<Attribute>, code: u16)
    ensures { list.new.items ≡ without_attribute code list.old.items }
{
    if let Some(k) = place_of(list, code) {
        list.remove(k);
    }
}

/// Whether an attribute that is given takes one out.
fn deletes(given: &Attribute) -> bool
    ensures { result ≡ bytes_eq given.now.text deleting_text }
{
    match given.text.as_slice() {
        [byte] => *byte == DELETE_CHARACTER,
        _ => false,
    }
}

/// Changes these attributes by one that is given.
fn change(alloc: Global, list: &mut Vec<Attribute>, given: &Attribute) -> Result<(), AllocError>
    ensures { OnOk result (list.new.items ≡ attributes_after_one list.old.items given.now) }
{
    if deletes(given) {
        take_out(list, given.code);
        Ok(())
    } else {
        put(list, copied_attribute(alloc, given)?)
    }
}

/// Attributes after all that are given, as a list of its own.
pub(crate) fn attributes_after(
    alloc: Global,
    given: &[Attribute],
    old: &[Attribute],
) -> Result<Vec<Attribute>, AllocError>
    ensures { IfOk result (λ v. v.items ≡ attributes_after given.now old.now) }
{
    let mut list = copied_attributes(alloc, old)?;
    for attribute in given {
        change(alloc, &mut list, attribute)?;
    }
    Ok(list)
}
