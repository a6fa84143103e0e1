// Disjoint sets of items. What can be done with them stands in `joining`.
ghost use Rattle.disjoint_sets.specs.Sets.{IsForest};

/// Disjoint sets of the items 0 to one below their number.
#[derive(Drop)]
pub struct Forest {
    // the parent of each item, which is never greater than the item; a root's is the root
    pub(crate) parents: Vec<u32>,
    pub ghost sound: { IsForest parents.items },
}
