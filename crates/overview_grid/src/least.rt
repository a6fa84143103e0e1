// The least of depths of which some may be missing.
ghost use Rattle.std.specs.Prelude.{◌<◌, ◌≤◌, length};
ghost use Rattle.overview_grid.specs.Least.{IsLeastOf};
ghost use Rattle.overview_grid.specs.Narrowed.{IsOneOf, StandsBetween};

// The lesser of two depths, none where either is missing.
pub(crate) fn lesser(a: Option<i32>, b: Option<i32>) -> Option<i32>
    ensures { IsLeastOf (IsOneOf a b) result }
{
    match (a, b) {
        (Some(x), Some(y)) => if y < x { b } else { a },
        (None, _) => a,
        (_, None) => b,
    }
}

// The least of the depths from `first` on and before `past`.
pub(crate) fn least_between(values: &[Option<i32>], first: usize, past: usize) -> Option<i32>
    requires some { first < past }
    requires inside { past ≤ length values.now }
    ensures { IsLeastOf (StandsBetween values.now first past) result }
{
    let mut least = values[first];
    for k in first + 1..past {
        least = lesser(least, values[k]);
    }
    least
}
