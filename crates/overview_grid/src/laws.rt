// Laws of overviews.
ghost use Rattle.overview_grid.specs.Laws.{CoarseGridsAreOverviews, OverviewsAreGrids, OverviewsAreOne};

/// A grid has one overview by a factor, which the definitions also compute, and it keeps what every grid keeps. This call does
/// nothing: its clauses are laws of the definitions.
pub fn coarse_grids()
    ensures computed { CoarseGridsAreOverviews }
    ensures one { OverviewsAreOne }
    ensures grids { OverviewsAreGrids }
{}
