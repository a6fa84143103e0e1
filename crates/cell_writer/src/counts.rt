// How many features are of which kind.
ghost use Rattle.std.specs.Prelude.{◌≡◌, ◌<◌, ◌^◌, length};
ghost use Rattle.cell_writer.specs.Layout.{geo_objects, objects};

use chart_model::Feature;

/// The first object code of meta objects (S-57, Appendix A).
pub(crate) const META: u16 = 300;
/// The first object code of cartographic objects.
pub(crate) const CARTOGRAPHIC: u16 = 400;
/// The first object code of collections.
pub(crate) const COLLECTION: u16 = 500;
/// The first object code after those of collections.
pub(crate) const OTHER: u16 = 600;

/// How many have an object code from `low` to below `high`.
pub(crate) fn objects(features: &[Feature], low: u16, high: u16) -> u32
    requires { length features.now < 2 ^ 32 }
    ensures count { result ≡ objects low high features.now }
    ensures few { result < 2 ^ 32 }
{
    features
        .iter()
        .filter(|feature| low <= feature.objl && feature.objl < high)
        .count() as u32
}

/// How many are neither meta objects, cartographic objects nor collections.
pub(crate) fn geo_objects(features: &[Feature]) -> u32
    requires { length features.now < 2 ^ 32 }
    ensures count { result ≡ geo_objects features.now }
    ensures few { result < 2 ^ 32 }
{
    features
        .iter()
        .filter(|feature| !(META <= feature.objl && feature.objl < OTHER))
        .count() as u32
}
