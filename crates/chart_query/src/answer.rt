// Answers of a look-up.
use chart_model::Items;

/// Where a point lies among the areas of group 1.
#[derive(Drop)]
pub enum Place {
    /// On no segment of an area, and inside none.
    Outside,
    /// On a segment of some area.
    Edge,
    /// Inside these: the features' positions in the chart's list, rising, at least one.
    Areas(Items<usize>),
}
