// The discs of a grid's nodes, and how far they reach.
ghost use Rattle.std.specs.Prelude.{◌≡◌, ℕ, ◌*◌, ◌<◌, ◌≤◌, true, false, length};
ghost use Rattle.depth_grid.specs.Disc.{near};
ghost use Rattle.depth_grid.specs.Views.{grid_view};
ghost use Rattle.shoal_buffer.specs.Chords.{IsChord};

use depth_grid::{Grid, Reach};

// The discs of so many rows and columns of nodes, how many rows away they reach, and how many
// columns in a node's own row.
#[derive(Clone, Copy)]
pub(crate) struct Discs {
    pub rows: usize,
    pub cols: usize,
    pub reach: Reach,
    pub away: usize,
    pub across: usize,
    pub ghost few_rows: { rows ≤ 1025 },
    pub ghost few_cols: { cols ≤ 1025 },
    pub ghost some_cols: { 0 < cols },
    pub ghost aspect: { reach.aspect ≤ 1000 },
    pub ghost radius: { reach.radius ≤ 64000 },
    pub ghost reached: { 1000 * away ≤ reach.radius },
    pub ghost whole: { (n : ℕ) → 1000 * n ≤ reach.radius → n ≤ away },
    pub ghost widest: { IsChord reach.aspect reach.radius cols 0 across },
}

impl Discs {
    pub(crate) fn new(grid: &Grid, reach: &Reach) -> Discs
        requires aspect { reach.now.aspect ≤ 1000 }
        requires radius { reach.now.radius ≤ 64000 }
        ensures rows { result.rows ≡ length (grid_view grid.now).ys }
        ensures cols { result.cols ≡ length (grid_view grid.now).xs }
        ensures aspect { result.reach.aspect ≡ reach.now.aspect }
        ensures radius { result.reach.radius ≡ reach.now.radius }
    {
        let cols = grid.cols();
        Discs {
            rows: grid.rows(),
            cols,
            reach: *reach,
            away: (reach.radius / 1000) as usize,
            across: chord(reach, 0, cols - 1),
        }
    }
}

// How many columns a disc reaches in a row so many rows away, of at most so many.
pub(crate) fn chord(reach: &Reach, away: usize, most: usize) -> usize
    requires aspect { reach.now.aspect ≤ 1000 }
    requires radius { reach.now.radius ≤ 64000 }
    requires away { 1000 * away ≤ reach.now.radius }
    requires most { most ≤ 1024 }
    ensures within { result ≤ most }
    ensures is_near { near reach.now.aspect reach.now.radius away result ≡ true }
    ensures widest { (n : ℕ) → result < n → n ≤ most → near reach.now.aspect reach.now.radius away n ≡ false }
{
    let mut across = most;
    while !reach.has(away as i32, across as i32) {
        across -= 1;
    }
    across
}
