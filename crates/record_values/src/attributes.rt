// The attributes of a feature.
ghost use Rattle.std.specs.Prelude.{◌≡◌, ◌++◌, cond, Some, None, IfOk, option_map};
ghost use Rattle.record_values.specs.Attributes.{attributes_in, attributes};
ghost use Rattle.record_values.specs.Views.{views};

use chart_model::{Attribute, Items};
use iso8211_codec::Field;
use s57_codes::tag::ATTF;
use s57_records::first_attribute;
use std::alloc::{AllocError, Global};

/// Appends the attributes of a body, or answers that it isn't attributes to its end.
fn append_attributes(
    alloc: Global,
    body: &[u8],
    list: &mut Vec<Attribute>,
) -> Result<bool, AllocError>
    ensures { IfOk result (λ whole. option_map (λ more. list.old.items ++ more) (attributes_in body.now) ≡ cond whole (Some list.new.items) None) }
{
    let mut rest = body;
    for _ in 0..body.len() {
        if rest.is_empty() {
            return Ok(true);
        }
        match first_attribute(rest) {
            Some((code, text, used)) => {
                let text = Items::over(Vec::from_slice(alloc, text)?);
                list.push(Attribute { code, text })?;
                let (_, after) = rest.split_at(used);
                rest = after;
            }
            None => return Ok(false),
        }
    }
    Ok(rest.is_empty())
}

/// The attributes of a record; None where some field of theirs isn't attributes to its end.
pub fn attributes_of(
    alloc: Global,
    fields: &[Field<'_>],
) -> Result<Option<Vec<Attribute>>, AllocError>
    ensures { IfOk result (λ found. option_map (λ v. v.items) found ≡ attributes (views fields.now)) }
{
    let mut list = Vec::new(alloc);
    for field in fields {
        if field.tag != ATTF {
            continue;
        }
        if !append_attributes(alloc, field.body, &mut list)? {
            return Ok(None);
        }
    }
    Ok(Some(list))
}
