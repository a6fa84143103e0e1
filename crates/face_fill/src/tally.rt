// Counting the sub-segments at the outlines of faces.
ghost use Rattle.std.specs.Prelude.{◌≡◌, ℕ, ◌+◌, ◌-◌, ◌<◌, ◌≤◌, Some, None, IfSome, IsTrue, length, slice_index, slice_set, true, false, option_map, vec_len, min};
ghost use Rattle.std.specs.List.{range_with_len};
ghost use Rattle.mesh_definitions.specs.Mesh.{first, second, has_cell};
ghost use Rattle.mesh_definitions.specs.Pieces.{part_bands, piece_at};
ghost use Rattle.face_fill.specs.Corners.{IsNode, IsLinkIn, parts_between};
ghost use Rattle.face_fill.specs.Listed.{InMesh};
ghost use Rattle.face_fill.specs.BandTableView.{field_by};
ghost use Rattle.face_fill.specs.PieceTableView.{IsPieceTable, item_count};
ghost use Rattle.face_fill.specs.Seats.{IsSeat};
ghost use Rattle.face_fill.specs.declared.tables.Seat.{Seat};
ghost use Rattle.face_fill.specs.Tallies.{Raises, most};
ghost use Rattle.face_fill.specs.TallyView.{AreNumbers, AddsTo, ShareAnItem, mesh_by, number_by, link_of, parts_of, row_parts, way_parts, chords_of, row_chords, all_chords};

use crate::band_table::{greater, lesser};
use crate::tables::{PieceTable, Seat, Tally};
use mesh_definitions::{Link, Rect, Tri, Way};
use tri_mesh::{MeshEdge, ends_of, tri_beside};

// One more at a number. A mesh has fewer sub-segments than a counter counts, so none ever stops at its greatest value.
fn bump(counts: &mut Vec<u32>, k: u32)
    requires { k < vec_len counts.old }
    ensures { counts.new.items ≡ slice_set counts.old.items k (min (slice_index counts.old.items k + 1) most) }
{
    let count = counts[k as usize];
    counts[k as usize] = count.saturating_add(1);
}

// Counts a sub-segment with these faces on its sides.
fn tally_one(tally: &mut Tally, right: Option<u32>, left: Option<u32>)
    requires right { IfSome right (λ k. k < length tally.old.counts.items) }
    requires left { IfSome left (λ k. k < length tally.old.counts.items) }
    ensures { Raises right left tally.old tally.new }
{
    match right {
        Some(a) => match left {
            Some(b) => {
                if a != b {
                    bump(&mut tally.counts, a);
                    bump(&mut tally.counts, b);
                }
            }
            None => {
                bump(&mut tally.counts, a);
                tally.outline = tally.outline.saturating_add(1);
            }
        },
        None => {
            if let Some(b) = left {
                bump(&mut tally.counts, b);
                tally.outline = tally.outline.saturating_add(1);
            }
        }
    }
}

// The first band of the parts between two nodes with these bands, and how many parts there are.
fn bands_between(a: Option<u8>, b: Option<u8>) -> (u32, u32)
    ensures parts { parts_between a b ≡ range_with_len result.0 result.1 }
    ensures small { result.0 + result.1 ≤ 512 }
{
    let Some(a) = a else { return (0, 1) };
    let Some(b) = b else { return (0, 1) };
    let low = u32::from(lesser(a, b));
    (low, u32::from(greater(a, b)) + 1 - low)
}

// The first band of a link's parts, and how many parts there are.
pub(crate) fn bands_of(table: &PieceTable, link: Link) -> (u32, u32)
    requires whole { IsPieceTable table.now }
    requires first { IsNode table.now.nodes.rect (first link) }
    requires second { IsNode table.now.nodes.rect (second link) }
    ensures parts { part_bands (field_by table.now.nodes) link ≡ range_with_len result.0 result.1 }
    ensures small { result.0 + result.1 ≤ 512 }
{
    let MeshEdge { a, b } = ends_of(link);
    bands_between(
        table.nodes.band(a.row, a.col),
        table.nodes.band(b.row, b.col),
    )
}

// The face of the piece of a triangle at a part of a link.
fn face_at(table: &PieceTable, numbers: &[u32], seat: Seat, band: u32) -> u32
    requires whole { IsPieceTable table.now }
    requires seat { IsSeat table.now seat }
    requires full { length numbers.now ≡ item_count table.now }
    requires piece { InMesh (field_by table.now.nodes) table.now.nodes.rect (piece_at (field_by table.now.nodes) band seat.tri) }
    ensures value { result ≡ number_by table.now numbers.now (piece_at (field_by table.now.nodes) band seat.tri) }
    ensures known { (count : ℕ) → AreNumbers table.now numbers.now count → result < count }
{
    numbers[table.item_at(seat, band)]
}

// What finds the items of a triangle on a side of a link, none beyond the border.
fn seat_beside(table: &PieceTable, tri: Option<Tri>) -> Option<Seat>
    requires whole { IsPieceTable table.now }
    requires inside { IfSome tri (λ t. has_cell table.now.nodes.rect t.row t.col ≡ true) }
    ensures tri { option_map (λ (s : Seat). s.tri) result ≡ tri }
    ensures seat { IfSome result (IsSeat table.now) }
{
    match tri {
        Some(tri) => Some(table.seat(tri)),
        None => None,
    }
}

// The face on a side of a part of a link, none beyond the border.
fn face_beside(table: &PieceTable, numbers: &[u32], seat: Option<Seat>, band: u32) -> Option<u32>
    requires whole { IsPieceTable table.now }
    requires seat { IfSome seat (IsSeat table.now) }
    requires full { length numbers.now ≡ item_count table.now }
    requires piece { IfSome seat (λ s. InMesh (field_by table.now.nodes) table.now.nodes.rect (piece_at (field_by table.now.nodes) band s.tri)) }
    ensures value { result ≡ option_map (λ t. number_by table.now numbers.now (piece_at (field_by table.now.nodes) band t)) (option_map (λ (s : Seat). s.tri) seat) }
    ensures known { IfSome result (λ k. (count : ℕ) → AreNumbers table.now numbers.now count → k < count) }
{
    match seat {
        Some(seat) => Some(face_at(table, numbers, seat, band)),
        None => None,
    }
}

// Whether the triangles on the sides of a link have one piece each and share its item, so that the link is at no outline.
fn lies_in_run(table: &PieceTable, right: Option<Tri>, left: Option<Tri>) -> bool
    requires whole { IsPieceTable table.now }
    requires right { IfSome right (λ t. has_cell table.now.nodes.rect t.row t.col ≡ true) }
    requires left { IfSome left (λ t. has_cell table.now.nodes.rect t.row t.col ≡ true) }
    ensures { IsTrue result → ShareAnItem table.now right left }
{
    let Some(right) = right else { return false };
    let Some(left) = left else { return false };
    table.share_an_item(right, left)
}

// Counts the parts of a link.
fn tally_link(table: &PieceTable, numbers: &[u32], tally: &mut Tally, link: Link)
    requires whole { IsPieceTable table.now }
    requires numbers { AreNumbers table.now numbers.now (length tally.old.counts.items) }
    requires first { IsNode table.now.nodes.rect (first link) }
    requires second { IsNode table.now.nodes.rect (second link) }
    ensures { AddsTo table.now numbers.now (parts_of table.now link) tally.old tally.new }
{
    let right = tri_beside(table.nodes.rect, link, true);
    let left = tri_beside(table.nodes.rect, link, false);
    if lies_in_run(table, right, left) {
        return;
    }
    let right = seat_beside(table, right);
    let left = seat_beside(table, left);
    let (first, count) = bands_of(table, link);
    for band in first..first + count {
        let on_right = face_beside(table, numbers, right, band);
        let on_left = face_beside(table, numbers, left, band);
        tally_one(tally, on_right, on_left);
    }
}

// Counts the parts of the links of one way in a row.
fn tally_row(
    table: &PieceTable,
    numbers: &[u32],
    tally: &mut Tally,
    way: Way,
    row: usize,
    cols: usize,
)
    requires whole { IsPieceTable table.now }
    requires numbers { AreNumbers table.now numbers.now (length tally.old.counts.items) }
    requires links { (j : ℕ) → table.now.nodes.rect.col ≤ j → j < table.now.nodes.rect.col + cols → IsLinkIn table.now.nodes.rect (link_of way row j) }
    requires few { cols ≤ 1025 }
    ensures { AddsTo table.now numbers.now (row_parts table.now way row cols) tally.old tally.new }
{
    let west = table.nodes.rect.col;
    for col in west..west + cols {
        tally_link(table, numbers, tally, Link { way, row, col });
    }
}

// Counts the parts of the links of one way.
fn tally_way(
    table: &PieceTable,
    numbers: &[u32],
    tally: &mut Tally,
    way: Way,
    rows: usize,
    cols: usize,
)
    requires whole { IsPieceTable table.now }
    requires numbers { AreNumbers table.now numbers.now (length tally.old.counts.items) }
    requires links { (i j : ℕ) → table.now.nodes.rect.row ≤ i → i < table.now.nodes.rect.row + rows → table.now.nodes.rect.col ≤ j → j < table.now.nodes.rect.col + cols → IsLinkIn table.now.nodes.rect (link_of way i j) }
    requires few_rows { rows ≤ 1025 }
    requires few_cols { cols ≤ 1025 }
    ensures { AddsTo table.now numbers.now (way_parts table.now way rows cols) tally.old tally.new }
{
    let north = table.nodes.rect.row;
    for row in north..north + rows {
        tally_row(table, numbers, tally, way, row, cols);
    }
}

// Counts the chords of a triangle.
fn tally_tri(table: &PieceTable, numbers: &[u32], tally: &mut Tally, tri: Tri)
    requires whole { IsPieceTable table.now }
    requires numbers { AreNumbers table.now numbers.now (length tally.old.counts.items) }
    requires inside { has_cell table.now.nodes.rect tri.row tri.col ≡ true }
    ensures { AddsTo table.now numbers.now (chords_of table.now tri) tally.old tally.new }
{
    if table.is_whole(tri) {
        return;
    }
    let Some(ends) = table.nodes.ends(tri) else {
        return;
    };
    let seat = table.seat(tri);
    let first = ends.least + 1;
    for k in 0..ends.greatest - ends.least {
        let deep = face_at(table, numbers, seat, first + k);
        let shoal = face_at(table, numbers, seat, first + k - 1);
        tally_one(tally, Some(deep), Some(shoal));
    }
}

// Counts the chords of the triangles of a row.
fn tally_chord_row(table: &PieceTable, numbers: &[u32], tally: &mut Tally, row: usize)
    requires whole { IsPieceTable table.now }
    requires numbers { AreNumbers table.now numbers.now (length tally.old.counts.items) }
    requires north { table.now.nodes.rect.row ≤ row }
    requires south { row < table.now.nodes.rect.row + table.now.nodes.rect.rows }
    ensures { AddsTo table.now numbers.now (row_chords table.now row table.now.nodes.rect.cols) tally.old tally.new }
{
    let rect = table.nodes.rect;
    for col in rect.col..rect.col + rect.cols {
        tally_tri(
            table,
            numbers,
            tally,
            Tri {
                row,
                col,
                upper: true,
            },
        );
        tally_tri(
            table,
            numbers,
            tally,
            Tri {
                row,
                col,
                upper: false,
            },
        );
    }
}

// Counts all chords.
fn tally_chords(table: &PieceTable, numbers: &[u32], tally: &mut Tally)
    requires whole { IsPieceTable table.now }
    requires numbers { AreNumbers table.now numbers.now (length tally.old.counts.items) }
    ensures { AddsTo table.now numbers.now (all_chords table.now table.now.nodes.rect.rows) tally.old tally.new }
{
    let rect = table.nodes.rect;
    for row in rect.row..rect.row + rect.rows {
        tally_chord_row(table, numbers, tally, row);
    }
}

// Counts all sub-segments.
pub(crate) fn tally_all(table: &PieceTable, numbers: &[u32], tally: &mut Tally)
    requires whole { IsPieceTable table.now }
    requires numbers { AreNumbers table.now numbers.now (length tally.old.counts.items) }
    ensures { AddsTo table.now numbers.now (mesh_by table.now).subs tally.old tally.new }
{
    let Rect { rows, cols, .. } = table.nodes.rect;
    tally_way(table, numbers, tally, Way::Across, rows + 1, cols);
    tally_way(table, numbers, tally, Way::Down, rows, cols + 1);
    tally_way(table, numbers, tally, Way::Slant, rows, cols);
    tally_chords(table, numbers, tally);
}
