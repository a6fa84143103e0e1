// ATTF: the attributes of a feature.
ghost use Rattle.std.specs.Prelude.{◌≡◌, ◌∷◌, [], IsTrue, option_map};
ghost use Rattle.std.specs.Result.{result_ok};
ghost use Rattle.s57_records.specs.Formats.{N, T, attribute_at, field_of, appended, is_text};
ghost use Rattle.s57_records.specs.Fields.{attribute};

use crate::cursor::{Malformed, text_at, u16_at};
use iso8211_codec::put;
use std::alloc::AllocError;

fn attribute_in(body: &[u8]) -> Result<(u16, &[u8], usize), Malformed>
    ensures { option_map (λ x. (x.0, (x.1.now, x.2))) (result_ok result) ≡ attribute_at body.now }
{
    let (code, rest) = u16_at(body)?;
    let (text, rest) = text_at(rest)?;
    Ok((code, text, body.len() - rest.len()))
}

/// The attribute at the beginning of a body of ATTF (S-57 Edition 3.1, Part 3, 7.6.3): its code, its text without the 0x1F,
/// and the number of bytes that it takes. None exactly where the body doesn't begin with an attribute that 0x1F ends.
pub fn first_attribute(body: &[u8]) -> Option<(u16, &[u8], usize)>
    ensures { option_map (λ x. (x.0, (x.1.now, x.2))) result ≡ attribute_at body.now }
{
    attribute_in(body).ok()
}

/// Appends an attribute, 3 bytes and those of its text, without a closing 0x1E; a refusal leaves `out` as it was.
pub fn push_attribute(out: &mut Vec<u8>, code: u16, text: &[u8]) -> Result<(), AllocError>
    requires { IsTrue (is_text text.now) }
    ensures { out.new.items ≡ appended result out.old.items (field_of attribute (N code ∷ T text.now ∷ [])) }
{
    out.reserve(text.len() + 3)?;
    put(out, &code.to_le_bytes());
    put(out, text);
    put(out, &[0x1f]);
    Ok(())
}
