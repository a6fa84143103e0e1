// Which features are areas and covers, and how many segments they have.
ghost use Rattle.cell_check.specs.Outlines.{all_segments, is_counted, is_cover, is_line, is_one, says_one};
ghost use Rattle.chart_model.specs.Tally.{IsMeasured};
ghost use Rattle.std.specs.Prelude.{◌≡◌, IfOk, length};

use chart_model::{Attribute, Chart, Feature};
use plane_geom::Seg;
use s57_codes::code::{AREA, CATCOV, M_COVR};
use std::alloc::{AllocError, Global};

fn is_one(text: &[u8]) -> bool
    ensures { result ≡ is_one text.now }
{
    text.len() == 1 && text[0] == b'1'
}

/// Whether the first attribute with a code says 1.
fn says_one(code: u16, attributes: &[Attribute]) -> bool
    ensures { result ≡ says_one code attributes.now }
{
    for attribute in attributes {
        if attribute.code == code {
            return is_one(attribute.text.as_slice());
        }
    }
    false
}

/// Whether a feature covers the ground: an M_COVR whose category of coverage is 1, data available.
pub(crate) fn is_coverage(feature: &Feature) -> bool
    ensures { result ≡ is_cover feature.now }
{
    if feature.objl != M_COVR || feature.prim != AREA {
        return false;
    }
    says_one(CATCOV, feature.attributes.as_slice())
}

/// Whether a feature is an area of group 1 or a cover.
fn is_outlined(feature: &Feature) -> bool
    ensures { result ≡ is_counted feature.now }
{
    feature.is_area() || is_coverage(feature)
}

/// Whether the ends of a segment differ.
pub(crate) fn has_length(s: Seg) -> bool
    ensures { result ≡ is_line s }
{
    s.a.x != s.b.x || s.a.y != s.b.y
}

/// The number of segments of all features that are areas or covers.
pub(crate) fn count_segments(alloc: Global, chart: &Chart) -> Result<u64, AllocError>
    requires { IsMeasured chart.now }
    ensures { IfOk result (λ n. n ≡ length (all_segments chart.now)) }
{
    let features = chart.parts().features.as_slice();
    let mut count = 0;
    for (place, feature) in features.iter().enumerate() {
        if is_outlined(feature) {
            let segments = chart.area_segments(alloc, place)?;
            count += segments.len() as u64;
        }
    }
    Ok(count)
}
