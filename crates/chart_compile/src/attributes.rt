// Attributes of features.
ghost use Rattle.built_parts.specs.Areas.{depth_of};
ghost use Rattle.std.specs.Prelude.{◌≡◌, ◌∷◌, [], IfOk};

use chart_model::{Attribute, Items};
use exact_num::decimetres_text;
use std::alloc::{AllocError, Global};

/// An attribute with a text.
pub(crate) fn attribute(code: u16, text: Vec<u8>) -> Attribute
    ensures { result ≡ record { code = code; text = text.items } }
{
    Attribute {
        code,
        text: Items::over(text),
    }
}

/// An attribute with a depth in metres, from decimetres.
pub(crate) fn depth_attribute(alloc: Global, code: u16, dm: i32) -> Result<Attribute, AllocError>
    ensures { IfOk result (λ a. a ≡ depth_of code dm) }
{
    let text = decimetres_text(alloc, dm)?;
    Ok(attribute(code, text.into_bytes()))
}

/// A feature's only attribute.
pub(crate) fn only_attribute(
    alloc: Global,
    attribute: Attribute,
) -> Result<Vec<Attribute>, AllocError>
    ensures { IfOk result (λ v. v.items ≡ attribute ∷ []) }
{
    let mut list = Vec::with_capacity(alloc, 1)?;
    list.push(attribute)?;
    Ok(list)
}
