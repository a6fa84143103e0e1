// What is shown where one points at an area or at a contour.
ghost use Rattle.std.specs.Prelude.{◌≡◌, ◌++◌, OnOk};
ghost use Rattle.std.specs.Option.{option_copied};
ghost use Rattle.chart_picture.specs.Titles.{area_title, contour_title, depth_title, if_number, number_or_mark, number_text};
ghost use Rattle.exact_num.specs.Text.{number_of};

use crate::colours::LNDARE;
use chart_model::{Attribute, Feature};
use exact_num::read_decimal;
use s57_codes::code::{DEPARE, DRVAL1, DRVAL2, UNSARE, VALDCO};
use std::alloc::{AllocError, Global};

/// Puts a text that is a number, and a question mark for any other.
fn put_if_number(text: &[u8], out: &mut Vec<u8>) -> Result<(), AllocError>
    ensures { OnOk result (out.new.items ≡ out.old.items ++ if_number (number_of text.now) text.now) }
{
    match read_decimal(text) {
        Ok(_) => out.extend_from_slice(text),
        Err(_) => out.extend_from_slice(b"?"),
    }
}

fn put_number_or_mark(attribute: Option<&Attribute>, out: &mut Vec<u8>) -> Result<(), AllocError>
    ensures { OnOk result (out.new.items ≡ out.old.items ++ number_or_mark (option_copied attribute.entry)) }
{
    match attribute {
        Some(attribute) => put_if_number(attribute.text.as_slice(), out),
        None => out.extend_from_slice(b"?"),
    }
}

/// Puts the number of the first attribute that has a code.
#[tactic(auto, unfolding(crate::specs::Titles::number_text))]
fn put_number(feature: &Feature, code: u16, out: &mut Vec<u8>) -> Result<(), AllocError>
    ensures { OnOk result (out.new.items ≡ out.old.items ++ number_text code feature.now) }
{
    put_number_or_mark(feature.first(code), out)
}

#[tactic(auto, unfolding(crate::specs::Titles::depth_title))]
fn put_depth_title(feature: &Feature, out: &mut Vec<u8>) -> Result<(), AllocError>
    ensures { OnOk result (out.new.items ≡ out.old.items ++ depth_title feature.now) }
{
    out.extend_from_slice(b"depth area, ")?;
    put_number(feature, DRVAL1, out)?;
    out.extend_from_slice(b" m to ")?;
    put_number(feature, DRVAL2, out)?;
    out.extend_from_slice(b" m")?;
    Ok(())
}

/// Puts an area's kind, and the range of a depth area.
#[tactic(auto, unfolding(crate::specs::Titles::area_title))]
pub(crate) fn put_area_title(
    alloc: Global,
    feature: &Feature,
    out: &mut Vec<u8>,
) -> Result<(), AllocError>
    ensures { OnOk result (out.new.items ≡ out.old.items ++ area_title feature.now) }
{
    let object = feature.objl;
    if object == DEPARE {
        return put_depth_title(feature, out);
    }
    if object == UNSARE {
        return out.extend_from_slice(b"unsurveyed area");
    }
    if object == LNDARE {
        return out.extend_from_slice(b"land area");
    }
    let text = format!(in alloc; "object {object}")?;
    out.extend_from_slice(text.as_bytes())
}

/// Puts a contour's value.
#[tactic(auto, unfolding(crate::specs::Titles::contour_title))]
pub(crate) fn put_contour_title(feature: &Feature, out: &mut Vec<u8>) -> Result<(), AllocError>
    ensures { OnOk result (out.new.items ≡ out.old.items ++ contour_title feature.now) }
{
    out.extend_from_slice(b"depth contour, ")?;
    put_number(feature, VALDCO, out)?;
    out.extend_from_slice(b" m")
}
