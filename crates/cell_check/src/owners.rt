// At most two outlines.
ghost use Rattle.cell_check.specs.Owners.{has, IsTurnedAt};
ghost use Rattle.std.specs.Prelude.{◌≡◌, ◌≢◌, IfSome};

/// At most two outlines by their places, the lower one first.
#[derive(Clone, Copy, Debug, PartialEq, Eq)]
pub(crate) enum Owners {
    Nobody,
    One(usize),
    Two(usize, usize),
}

fn turned_beside(one: usize, owner: usize) -> Owners
    ensures { IsTurnedAt owner (has (Owners.One one)) (has result) }
{
    if one == owner {
        Owners::Nobody
    } else if owner < one {
        Owners::Two(owner, one)
    } else {
        Owners::Two(one, owner)
    }
}

fn left_of_two(first: usize, second: usize, owner: usize) -> Option<Owners>
    ensures { IfSome result (λ new. IsTurnedAt owner (has (Owners.Two first second)) (has new)) }
{
    if first == second {
        None
    } else if first == owner {
        Some(Owners::One(second))
    } else if second == owner {
        Some(Owners::One(first))
    } else {
        None
    }
}

impl Owners {
    /// The same without an outline that is among them, or with one that isn't; `None` where that makes three.
    pub fn turned(self, owner: usize) -> Option<Owners>
        ensures { IfSome result (λ new. IsTurnedAt owner (has self) (has new)) }
    {
        match self {
            Owners::Nobody => Some(Owners::One(owner)),
            Owners::One(one) => Some(turned_beside(one, owner)),
            Owners::Two(first, second) => left_of_two(first, second, owner),
        }
    }
}
