// What has a gap inside.
ghost use Rattle.cell_check.specs.Owners.{are_right, holds, is_cover_place, is_one_area, nothing, IsTurnedAt};
ghost use Rattle.std.specs.Prelude.{◌≡◌, IfSome};

use crate::owners::Owners;

/// How many areas and covers a chart has. Areas have the places from 0 on, and covers those after them.
#[derive(Clone, Copy)]
pub(crate) struct Counts {
    pub areas: usize,
    pub covers: usize,
}

/// The areas and the covers that have a gap inside, where that are at most two of each.
#[derive(Clone, Copy, Debug, PartialEq, Eq)]
pub(crate) struct Holders {
    pub areas: Owners,
    pub covers: Owners,
}

/// Whether there is exactly one, an area.
fn is_one_area(owners: Owners, count: Counts) -> bool
    ensures { result ≡ is_one_area count owners }
{
    match owners {
        Owners::One(area) => area < count.areas,
        _ => false,
    }
}

fn is_cover(place: usize, count: Counts) -> bool
    ensures { result ≡ is_cover_place count place }
{
    count.areas <= place && place - count.areas < count.covers
}

impl Holders {
    /// Those of the gap east of all lines.
    pub fn none() -> Holders
        ensures { result ≡ nothing }
    {
        Holders {
            areas: Owners::Nobody,
            covers: Owners::Nobody,
        }
    }

    /// Those of the gap west of a line of an outline, where these are those of the gap east of it; `None` where that are
    /// more than two of a kind.
    pub fn turned(self, owner: usize, count: Counts) -> Option<Holders>
        ensures { IfSome result (λ new. IsTurnedAt owner (holds count.areas self) (holds count.areas new)) }
    {
        if owner < count.areas {
            match self.areas.turned(owner) {
                Some(areas) => Some(Holders {
                    areas,
                    covers: self.covers,
                }),
                None => None,
            }
        } else {
            match self.covers.turned(owner) {
                Some(covers) => Some(Holders {
                    areas: self.areas,
                    covers,
                }),
                None => None,
            }
        }
    }

    /// Whether these are one area and a cover, or nothing. `false` where a place is of none.
    pub fn are_right(self, count: Counts) -> bool
        ensures { result ≡ are_right count self.covers self.areas }
    {
        match self.covers {
            Owners::Nobody => self.areas == Owners::Nobody,
            Owners::One(cover) | Owners::Two(cover, _) => {
                is_cover(cover, count) && is_one_area(self.areas, count)
            }
        }
    }
}
