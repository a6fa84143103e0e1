// What the two ways of looking a point up share: the answer from the areas that are found.
ghost use Rattle.chart_query.specs.Answer.{inside};
ghost use Rattle.std.specs.Prelude.{◌≡◌};

use crate::Place;
use chart_model::Items;

/// The place of a point that is on no edge, by the areas that have it inside.
pub(crate) fn off_edges(found: Vec<usize>) -> Place
    ensures { result ≡ inside found.items }
{
    if found.is_empty() {
        Place::Outside
    } else {
        Place::Areas(Items::over(found))
    }
}
