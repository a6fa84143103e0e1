// The triangles of a rectangle of cells: beside links, and by number.
ghost use Rattle.std.specs.Prelude.{◌≡◌, ◌+◌, ◌^◌, ◌<◌, ◌≤◌, IfSome, Some, None, cond, true, false};
ghost use Rattle.mesh_definitions.specs.Mesh.{has_cell, right_tri};
ghost use Rattle.mesh_definitions.specs.declared.Way.TheVariants.{Across, Down};
ghost use Rattle.tri_mesh.specs.Lines.{walked_link};
ghost use Rattle.tri_mesh.specs.TriNumbers.{tri_at, place_in};

use mesh_definitions::{Link, Rect, Tri, Way};

// A triangle, where the rectangle has its cell.
fn tri_in(rect: Rect, tri: Tri) -> Option<Tri>
    requires rows { rect.row + rect.rows ≤ 1024 }
    requires cols { rect.col + rect.cols ≤ 1024 }
    ensures value { result ≡ cond (has_cell rect tri.row tri.col) (Some tri) None }
    ensures inside { IfSome result (λ t. (t.row < rect.row + rect.rows) × (t.col < rect.col + rect.cols)) }
{
    if rect.row <= tri.row
        && tri.row < rect.row + rect.rows
        && rect.col <= tri.col
        && tri.col < rect.col + rect.cols
    {
        Some(tri)
    } else {
        None
    }
}

// The lower triangle of the cell to the north, where the rectangle has that cell.
fn north_of(rect: Rect, row: usize, col: usize) -> Option<Tri>
    requires rows { rect.row + rect.rows ≤ 1024 }
    requires cols { rect.col + rect.cols ≤ 1024 }
    ensures value { result ≡ right_tri rect (walked_link (record { way = Across; row = row; col = col }) false) }
    ensures inside { IfSome result (λ t. (t.row < rect.row + rect.rows) × (t.col < rect.col + rect.cols)) }
{
    if row == 0 {
        return None;
    }
    tri_in(
        rect,
        Tri {
            row: row - 1,
            col,
            upper: false,
        },
    )
}

// The lower triangle of the cell to the west, where the rectangle has that cell.
fn west_of(rect: Rect, row: usize, col: usize) -> Option<Tri>
    requires rows { rect.row + rect.rows ≤ 1024 }
    requires cols { rect.col + rect.cols ≤ 1024 }
    ensures value { result ≡ right_tri rect (walked_link (record { way = Down; row = row; col = col }) true) }
    ensures inside { IfSome result (λ t. (t.row < rect.row + rect.rows) × (t.col < rect.col + rect.cols)) }
{
    if col == 0 {
        return None;
    }
    tri_in(
        rect,
        Tri {
            row,
            col: col - 1,
            upper: false,
        },
    )
}

/// The triangle on the right of a link that is walked from its first node to its second, or back. `None` exactly where
/// the rectangle, which reaches to row and column 1,024 at most, doesn't have it.
pub fn tri_beside(rect: Rect, link: Link, forward: bool) -> Option<Tri>
    requires rows { rect.row + rect.rows ≤ 1024 }
    requires cols { rect.col + rect.cols ≤ 1024 }
    ensures value { result ≡ right_tri rect (walked_link link forward) }
    ensures inside { IfSome result (λ t. (t.row < rect.row + rect.rows) × (t.col < rect.col + rect.cols)) }
{
    let Link { way, row, col } = link;
    let upper = Tri {
        row,
        col,
        upper: true,
    };
    match way {
        Way::Across => if forward {
            tri_in(rect, upper)
        } else {
            north_of(rect, row, col)
        },
        Way::Down => if forward {
            west_of(rect, row, col)
        } else {
            tri_in(rect, upper)
        },
        Way::Slant => tri_in(
            rect,
            Tri {
                row,
                col,
                upper: !forward,
            },
        ),
    }
}

/// The number of a triangle among those of a rectangle, which count from 0, row by row, in a cell the upper one first.
pub fn tri_number(rect: Rect, tri: Tri) -> usize
    requires rows { rect.row + rect.rows ≤ 1024 }
    requires cols { rect.col + rect.cols ≤ 1024 }
    requires inside { has_cell rect tri.row tri.col ≡ true }
    ensures { result ≡ place_in rect tri }
{
    let cell = (tri.row - rect.row) * rect.cols + (tri.col - rect.col);
    2 * cell + if tri.upper { 0 } else { 1 }
}

/// The triangle of a rectangle that has a number.
pub fn numbered_tri(rect: Rect, number: usize) -> Tri
    requires row { rect.row ≤ 1024 }
    requires col { rect.col ≤ 1024 }
    requires some { 0 < rect.cols }
    requires number { number < 2 ^ 22 }
    ensures { result ≡ tri_at rect number }
{
    let cell = number / 2;
    Tri {
        row: rect.row + cell / rect.cols,
        col: rect.col + cell % rect.cols,
        upper: number % 2 == 0,
    }
}
