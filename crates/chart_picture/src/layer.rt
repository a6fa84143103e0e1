// How high an area is painted.

/// An area's layer, and its place among the features of its chart: an area of a higher layer is painted later, over those
/// of lower ones. `number` is the layer, from 0 to 2,000,001.
#[derive(Clone, Copy)]
pub(crate) struct Layer {
    pub number: u32,
    pub place: usize,
}
