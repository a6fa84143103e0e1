// The fills of areas.
ghost use Rattle.std.specs.Prelude.{◌≡◌};
ghost use Rattle.std.specs.Option.{option_copied};
ghost use Rattle.chart_picture.specs.Colours.{decimetres_in, depth_in, earthly, fill_of, shoalest, water};
ghost use Rattle.exact_num.specs.Text.{number_of};
ghost use Rattle.exact_num.specs.Value.{floor_at};

use chart_model::{Attribute, Feature};
use exact_num::{Decimal, read_decimal, scaled_floor};
use s57_codes::code::{DEPARE, DRVAL1};

/// OBJL of a land area.
pub(crate) const LNDARE: u16 = 71;

/// The decimetres of a depth in metres, rounded down, where it is less than 100 km either way.
#[tactic(auto, unfolding(crate::specs::Colours::earthly))]
fn decimetres(metres: &Decimal) -> Option<i128>
    ensures { result ≡ earthly (floor_at metres.now 1) }
{
    match scaled_floor(metres, 1) {
        Some(dm) => {
            if dm.unsigned_abs() <= 1_000_000 {
                Some(dm)
            } else {
                None
            }
        }
        None => None,
    }
}

fn depth_of_text(text: &[u8]) -> Option<i128>
    ensures { result ≡ decimetres_in (number_of text.now) }
{
    match read_decimal(text) {
        Ok(metres) => decimetres(&metres),
        Err(_) => None,
    }
}

fn depth_of(attribute: Option<&Attribute>) -> Option<i128>
    ensures { result ≡ depth_in (option_copied attribute.entry) }
{
    match attribute {
        Some(attribute) => depth_of_text(attribute.text.as_slice()),
        None => None,
    }
}

/// What an area's water is at least deep, in decimetres.
#[tactic(auto, unfolding(crate::specs::Colours::shoalest))]
pub(crate) fn least_depth(feature: &Feature) -> Option<i128>
    ensures { result ≡ shoalest feature.now }
{
    depth_of(feature.first(DRVAL1))
}

fn water_fill(depth: Option<i128>) -> &'static str
    ensures { result.now ≡ water depth }
{
    let Some(dm) = depth else {
        return "fill=\"#a3b4b7";
    };
    if dm < 0 {
        return "fill=\"#83b295";
    }
    if dm < 20 {
        return "fill=\"#73b6ef";
    }
    if dm < 50 {
        return "fill=\"#98c5f2";
    }
    if dm < 100 {
        return "fill=\"#c4e0f5";
    }
    if dm < 300 {
        return "fill=\"#e0f0fa";
    }
    "fill=\"#ffffff"
}

/// How the path of an area is filled.
#[tactic(auto, unfolding(crate::specs::Colours::fill_of))]
pub(crate) fn fill(feature: &Feature) -> &'static str
    ensures { result.now ≡ fill_of feature.now }
{
    if feature.objl == DEPARE {
        return water_fill(least_depth(feature));
    }
    if feature.objl == LNDARE {
        return "fill=\"#c9b97a";
    }
    "fill=\"#a3b4b7"
}
