// The fields of a record, found by their tags.
ghost use Rattle.std.specs.Prelude.{◌≡◌, ◌<◌, length, map, option_map, OnOk};
ghost use Rattle.iso8211_codec.specs.Reading.{seen};
ghost use Rattle.iso8211_codec.specs.Views.{parts};
ghost use Rattle.record_values.specs.Fields.{bodies, only, leads, are_whole};
ghost use Rattle.record_values.specs.Views.{views};

use iso8211_codec::{Field, RawRec, Tag};
use s57_codes::tag::ID;
use std::alloc::AllocError;

/// Replaces these by the fields of a record.
pub fn list_fields<'a>(raw: &RawRec<'a>, fields: &mut Vec<Field<'a>>) -> Result<(), AllocError>
    ensures { OnOk result (views fields.new.items ≡ map seen (parts raw.now)) }
{
    fields.clear();
    for k in 0..raw.count() {
        fields.push(raw.field(k))?;
    }
    Ok(())
}

/// The body of the one field with a tag; None where there is none, or more than one.
pub fn only<'a>(fields: &[Field<'a>], tag: Tag) -> Option<&'a [u8]>
    ensures { option_map (λ body. body.now) result ≡ only tag (views fields.now) }
{
    let mut found = None;
    for field in fields {
        if field.tag != tag {
            continue;
        }
        if found.is_some() {
            return None;
        }
        found = Some(field.body);
    }
    found
}

/// Whether the first field is 0001 and the second has this tag.
pub fn leads(fields: &[Field<'_>], tag: Tag) -> bool
    ensures { result ≡ leads tag (views fields.now) }
{
    match fields {
        [id, named, ..] => id.tag == ID && named.tag == tag,
        _ => false,
    }
}

/// Whether the body of each field with a tag is whole groups of so many bytes.
pub fn are_whole(fields: &[Field<'_>], tag: Tag, size: usize) -> bool
    requires { 0 < size }
    ensures { result ≡ are_whole size tag (views fields.now) }
{
    for field in fields {
        if field.tag == tag && field.body.len() % size != 0 {
            return false;
        }
    }
    true
}

/// How many fields have a tag.
pub fn count_of(fields: &[Field<'_>], tag: Tag) -> usize
    ensures { result ≡ length (bodies tag (views fields.now)) }
{
    let mut count = 0;
    for field in fields {
        if field.tag == tag {
            count += 1;
        }
    }
    count
}
