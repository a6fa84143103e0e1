// Joining the items of adjacent pieces, and numbering what is joined.
ghost use Rattle.std.specs.Prelude.{◌≡◌, ℕ, ◌+◌, ◌<◌, ◌≤◌, IfOk, length};
ghost use Rattle.mesh_definitions.specs.Mesh.{first, second};
ghost use Rattle.face_fill.specs.Corners.{IsLinkIn, IsNode};
ghost use Rattle.face_fill.specs.Joins.{AreItemNumbers, AreMet, AreRowMet, AreWayMet, Grows};
ghost use Rattle.face_fill.specs.PieceTableView.{IsPieceTable, item_count};
ghost use Rattle.face_fill.specs.TallyView.{link_of};
ghost use Rattle.disjoint_sets.specs.Views.{parents_of};

use crate::tables::PieceTable;
use crate::tally::bands_of;
use disjoint_sets::{Forest, SetNumbers, singles};
use mesh_definitions::{Link, Rect, Way};
use std::alloc::{AllocError, Global};
use tri_mesh::tri_beside;

// Joins the items of the pieces of one kind on the sides of a link.
fn join_link(table: &PieceTable, sets: &mut Forest, link: Link)
    requires whole { IsPieceTable table.now }
    requires full { length (parents_of sets.old) ≡ item_count table.now }
    requires first { IsNode table.now.nodes.rect (first link) }
    requires second { IsNode table.now.nodes.rect (second link) }
    ensures grows { Grows table.now (parents_of sets.old) (parents_of sets.new) }
    ensures met { AreMet table.now (parents_of sets.new) link }
{
    let Some(right) = tri_beside(table.nodes.rect, link, true) else {
        return;
    };
    let Some(left) = tri_beside(table.nodes.rect, link, false) else {
        return;
    };
    if table.share_an_item(right, left) {
        return;
    }
    let right = table.seat(right);
    let left = table.seat(left);
    if !table.are_alike(right, left) {
        return;
    }
    let (first, count) = bands_of(table, link);
    for band in first..first + count {
        sets.join(table.item_at(right, band), table.item_at(left, band));
    }
}

// Joins the items across the links of one way in a row.
fn join_row(table: &PieceTable, sets: &mut Forest, way: Way, row: usize, cols: usize)
    requires whole { IsPieceTable table.now }
    requires full { length (parents_of sets.old) ≡ item_count table.now }
    requires links { (j : ℕ) → table.now.nodes.rect.col ≤ j → j < table.now.nodes.rect.col + cols → IsLinkIn table.now.nodes.rect (link_of way row j) }
    requires few { cols ≤ 1025 }
    ensures grows { Grows table.now (parents_of sets.old) (parents_of sets.new) }
    ensures met { AreRowMet table.now (parents_of sets.new) way row cols }
{
    let west = table.nodes.rect.col;
    for col in west..west + cols {
        join_link(table, sets, Link { way, row, col });
    }
}

// Joins the items across the links of one way.
fn join_way(table: &PieceTable, sets: &mut Forest, way: Way, rows: usize, cols: usize)
    requires whole { IsPieceTable table.now }
    requires full { length (parents_of sets.old) ≡ item_count table.now }
    requires links { (i j : ℕ) → table.now.nodes.rect.row ≤ i → i < table.now.nodes.rect.row + rows → table.now.nodes.rect.col ≤ j → j < table.now.nodes.rect.col + cols → IsLinkIn table.now.nodes.rect (link_of way i j) }
    requires few_rows { rows ≤ 1025 }
    requires few_cols { cols ≤ 1025 }
    ensures grows { Grows table.now (parents_of sets.old) (parents_of sets.new) }
    ensures met { AreWayMet table.now (parents_of sets.new) way rows cols }
{
    let north = table.nodes.rect.row;
    for row in north..north + rows {
        join_row(table, sets, way, row, cols);
    }
}

// Numbers the items of a table: items have one number exactly where chains of adjacent pieces join theirs.
pub(crate) fn number_items(alloc: Global, table: &PieceTable) -> Result<SetNumbers, AllocError>
    requires { IsPieceTable table.now }
    ensures { IfOk result (λ found. AreItemNumbers table.now found.numbers.items found.count) }
{
    let Rect { rows, cols, .. } = table.nodes.rect;
    let mut sets = singles(alloc, table.items.owners.len())?;
    join_way(table, &mut sets, Way::Across, rows + 1, cols);
    join_way(table, &mut sets, Way::Down, rows, cols + 1);
    join_way(table, &mut sets, Way::Slant, rows, cols);
    Ok(sets.into_numbers())
}
