// The order in which areas are painted.
ghost use Rattle.std.specs.Prelude.{◌≡◌, ◌++◌, ◌≤◌, IfOk, IfSome, OnOk, unsigned_abs};
ghost use Rattle.chart_model.specs.Areas.{areas};
ghost use Rattle.chart_picture.specs.Layers.{AreLayers, deepest_first, layer_of, layers_at, painted_depth};

use crate::colours::least_depth;
use crate::layer::Layer;
use chart_model::{Chart, Feature};
use s57_codes::code::DEPARE;
use std::alloc::{AllocError, Global};

/// The layer of what has no known depth: above that of the greatest drying height.
const UNKNOWN_DEPTH: u32 = 2_000_001;

/// The depth by which an area is painted, in decimetres.
#[tactic(auto, unfolding(crate::specs::Layers::painted_depth))]
fn depth(feature: &Feature) -> Option<i128>
    ensures value { result ≡ painted_depth feature.now }
    ensures small { IfSome result (λ dm. unsigned_abs dm ≤ 1000000) }
{
    if feature.objl == DEPARE {
        least_depth(feature)
    } else {
        None
    }
}

/// The layer of an area.
#[tactic(auto, unfolding(crate::specs::Layers::layer_of))]
fn layer(feature: &Feature) -> u32
    ensures { result ≡ layer_of feature.now }
{
    match depth(feature) {
        Some(dm) => (1_000_000 - dm).unsigned_abs() as u32,
        None => UNKNOWN_DEPTH,
    }
}

/// Adds the layer of the feature at a place, where it is an area of group 1.
fn add_layer(layers: &mut Vec<Layer>, feature: &Feature, place: usize) -> Result<(), AllocError>
    ensures { OnOk result (layers.new.items ≡ layers.old.items ++ layers_at place feature.now) }
{
    if feature.is_area() {
        layers.push(Layer {
            number: layer(feature),
            place,
        })?;
    }
    Ok(())
}

/// The layers of a chart's areas of group 1, in the order of the chart.
fn layers(alloc: Global, chart: &Chart) -> Result<Vec<Layer>, AllocError>
    ensures { IfOk result (λ v. AreLayers chart.now.features v.items (areas chart.now)) }
{
    let features = chart.parts().features.as_slice();
    let mut layers = Vec::new(alloc);
    for (place, feature) in features.iter().enumerate() {
        add_layer(&mut layers, feature, place)?;
    }
    Ok(layers)
}

/// The layers of a chart's areas of group 1, the deepest first; those of one layer stay in the order of the chart.
pub(crate) fn layers_by_depth(alloc: Global, chart: &Chart) -> Result<Vec<Layer>, AllocError>
    ensures { IfOk result (λ v. AreLayers chart.now.features v.items (deepest_first (areas chart.now))) }
{
    let mut layers = layers(alloc, chart)?;
    layers.sort_by_key(|layer| layer.number)?;
    Ok(layers)
}
