// Which areas are unsafe.
ghost use Rattle.std.specs.Option.{option_copied};
ghost use Rattle.std.specs.Prelude.{◌≡◌};
ghost use Rattle.exact_num.specs.Text.{number_of};
ghost use Rattle.route_check.specs.Unsafe.{is_unsafe, is_unsafe_attribute, is_unsafe_number};

use chart_model::{Attribute, Feature};
use exact_num::{Decimal, less, read_decimal};
use s57_codes::code::{DEPARE, DRVAL1};

/// Whether a text is no number, or one that is less than the depth.
fn is_unsafe_text(text: &[u8], depth: &Decimal) -> bool
    ensures { result ≡ is_unsafe_number depth.now (number_of text.now) }
{
    match read_decimal(text) {
        Ok(number) => less(&number, depth),
        Err(_) => true,
    }
}

/// Whether a least depth is missing, is no number, or is less than the depth.
fn is_unsafe_depth(least: Option<&Attribute>, depth: &Decimal) -> bool
    ensures { result ≡ is_unsafe_attribute depth.now (option_copied least.entry) }
{
    match least {
        Some(attribute) => is_unsafe_text(attribute.text.as_slice(), depth),
        None => true,
    }
}

/// Whether a feature is an area of group 1 that is unsafe for the depth.
pub(crate) fn is_unsafe(feature: &Feature, depth: &Decimal) -> bool
    ensures { result ≡ is_unsafe depth.now feature.now }
{
    if !feature.is_area() {
        return false;
    }
    if feature.objl != DEPARE {
        return true;
    }
    is_unsafe_depth(feature.first(DRVAL1), depth)
}
