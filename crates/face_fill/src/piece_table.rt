// Making and reading the table of pieces: the pieces of a rectangle of cells, numbered as items.
ghost use Rattle.std.specs.Prelude.{◌≡◌, ℕ, ◌+◌, ◌-◌, ◌*◌, ◌<◌, ◌≤◌, IfOk, OnOk, IfSome, IsTrue, length, true};
ghost use Rattle.mesh_definitions.specs.Mesh.{all_cells, has_cell};
ghost use Rattle.mesh_definitions.specs.Pieces.{piece_at, pieces_of};
ghost use Rattle.mesh_definitions.specs.declared.Piece.{Piece};
ghost use Rattle.face_fill.specs.BandTableView.{field_by, HasNodeBands};
ghost use Rattle.face_fill.specs.Numbered.{first_band};
ghost use Rattle.face_fill.specs.Items.{alike, piece_by};
ghost use Rattle.face_fill.specs.Joins.{item_by, piece_from};
ghost use Rattle.face_fill.specs.Listed.{InMesh};
ghost use Rattle.face_fill.specs.Seats.{IsSeat};
ghost use Rattle.face_fill.specs.PieceTableView.{IsPieceTable, AreBlocksOf, block_by, item_count};
ghost use Rattle.face_fill.specs.Runs.{AreListed, GoesOn, IsBefore, IsLast, IsLook};
ghost use Rattle.tri_mesh.specs.TriNumbers.{place_in, tri_count};

use crate::tables::{BandTable, Items, Look, PieceTable, Seat};
use mesh_definitions::{Class, Rect, Tri};
use std::alloc::{AllocError, Global};
use tri_mesh::{Blocks, numbered_tri, tri_number};

// The number of the block that has a triangle.
fn block_of(nodes: &BandTable, blocks: Option<&Blocks>, tri: Tri) -> u32
    requires nodes { HasNodeBands nodes.now }
    requires fit { AreBlocksOf blocks (all_cells (field_by nodes.now)) }
    requires inside { has_cell nodes.now.rect tri.row tri.col ≡ true }
    ensures { result ≡ block_by blocks.entry tri.row tri.col }
{
    match blocks {
        Some(blocks) => blocks.block_of(tri.row, tri.col),
        None => 0,
    }
}

// How many pieces a triangle has, and of which kind the first of them is.
fn look_at(nodes: &BandTable, blocks: Option<&Blocks>, tri: Tri) -> Look
    requires nodes { HasNodeBands nodes.now }
    requires fit { AreBlocksOf blocks (all_cells (field_by nodes.now)) }
    requires inside { has_cell nodes.now.rect tri.row tri.col ≡ true }
    ensures look { IsLook (field_by nodes.now) nodes.now.rect (block_by blocks.entry) tri result }
    ensures few { result.count ≤ 21 }
{
    let block = block_of(nodes, blocks, tri);
    match nodes.ends(tri) {
        Some(ends) => Look {
            count: ends.greatest - ends.least + 1,
            class: Class::Band(ends.least),
            block,
        },
        None => Look {
            count: 1,
            class: Class::Unsurveyed,
            block,
        },
    }
}

// Whether two triangles have one piece each, and both pieces are of one kind.
fn are_of_one_kind(a: Look, b: Look) -> bool
    ensures one { IsTrue result → (a.count ≡ 1) × (b.count ≡ 1) }
    ensures class { IsTrue result → a.class ≡ b.class }
    ensures block { IsTrue result → a.block ≡ b.block }
{
    a.count == 1 && b.count == 1 && a.block == b.block && a.class == b.class
}

// Whether a triangle goes on with the item of the one before it.
fn goes_on(before: Option<Look>, look: Look) -> bool
    ensures { IsTrue result → GoesOn before look }
{
    match before {
        Some(before) => are_of_one_kind(before, look),
        None => false,
    }
}

// Lists the pieces of a triangle by its number, behind those of all triangles before it. The one right before it is given,
// where it lies beyond a leg.
fn list_tri(
    nodes: &BandTable,
    blocks: Option<&Blocks>,
    items: &mut Items,
    before: Option<Look>,
    place: usize,
    tri: Tri,
) -> Result<Look, AllocError>
    requires nodes { HasNodeBands nodes.now }
    requires fit { AreBlocksOf blocks (all_cells (field_by nodes.now)) }
    requires inside { has_cell nodes.now.rect tri.row tri.col ≡ true }
    requires place { place ≡ place_in nodes.now.rect tri }
    requires listed { AreListed (field_by nodes.now) nodes.now.rect (block_by blocks) place items.old }
    requires before { IfSome before (IsBefore (field_by nodes.now) nodes.now.rect (block_by blocks) place items.old tri) }
    ensures listed { OnOk result (AreListed (field_by nodes.now) nodes.now.rect (block_by blocks.entry) (place + 1) items.new) }
    ensures last { IfOk result (IsLast (field_by nodes.now) nodes.now.rect (block_by blocks.entry) (place + 1) items.new tri) }
{
    let look = look_at(nodes, blocks, tri);
    let next = items.owners.len();
    items.counts.push(look.count as u8)?;
    if goes_on(before, look) {
        items.starts.push((next - 1) as u32)?;
    } else {
        items.starts.push(next as u32)?;
        items
            .owners
            .resize(next + look.count as usize, place as u32)?;
    }
    Ok(look)
}

// Lists the pieces of the triangles of a row of cells.
fn list_row(
    nodes: &BandTable,
    blocks: Option<&Blocks>,
    items: &mut Items,
    row: usize,
) -> Result<(), AllocError>
    requires nodes { HasNodeBands nodes.now }
    requires fit { AreBlocksOf blocks (all_cells (field_by nodes.now)) }
    requires north { nodes.now.rect.row ≤ row }
    requires south { row < nodes.now.rect.row + nodes.now.rect.rows }
    requires listed { AreListed (field_by nodes.now) nodes.now.rect (block_by blocks) (2 * ((row - nodes.now.rect.row) * nodes.now.rect.cols)) items.old }
    ensures { OnOk result (AreListed (field_by nodes.now) nodes.now.rect (block_by blocks.entry) (2 * ((row + 1 - nodes.now.rect.row) * nodes.now.rect.cols)) items.new) }
{
    let rect = nodes.rect;
    let first = 2 * ((row - rect.row) * rect.cols);
    let mut before = None;
    for col in 0..rect.cols {
        let upper = Tri {
            row,
            col: rect.col + col,
            upper: true,
        };
        let lower = Tri {
            row,
            col: rect.col + col,
            upper: false,
        };
        let place = first + 2 * col;
        let look = list_tri(nodes, blocks, items, before, place, upper)?;
        let last = list_tri(nodes, blocks, items, Some(look), place + 1, lower)?;
        before = Some(last);
    }
    Ok(())
}

// Lists the pieces of a rectangle of cells.
fn list_items(
    alloc: Global,
    nodes: &BandTable,
    blocks: Option<&Blocks>,
) -> Result<Items, AllocError>
    requires nodes { HasNodeBands nodes.now }
    requires fit { AreBlocksOf blocks (all_cells (field_by nodes.now)) }
    ensures { IfOk result (AreListed (field_by nodes.now) nodes.now.rect (block_by blocks.entry) (tri_count nodes.now.rect)) }
{
    let rect = nodes.rect;
    let count = 2 * (rect.rows * rect.cols);
    let mut items = Items {
        starts: Vec::with_capacity(alloc, count)?,
        counts: Vec::with_capacity(alloc, count)?,
        owners: Vec::new(alloc),
    };
    for row in rect.row..rect.row + rect.rows {
        list_row(nodes, blocks, &mut items, row)?;
    }
    Ok(items)
}

// Makes the table of the pieces of a rectangle of cells from the bands of its nodes.
pub(crate) fn list_pieces<'a, 'g>(
    alloc: Global,
    nodes: BandTable<'a, 'g>,
    blocks: Option<&'a Blocks>,
) -> Result<PieceTable<'a, 'g>, AllocError>
    requires nodes { HasNodeBands nodes }
    requires fit { AreBlocksOf blocks (all_cells (field_by nodes)) }
    ensures whole { IfOk result IsPieceTable }
    ensures nodes { IfOk result (λ p. p.nodes ≡ nodes.entry) }
    ensures blocks { IfOk result (λ p. p.blocks ≡ blocks.entry) }
{
    let items = list_items(alloc, &nodes, blocks)?;
    Ok(PieceTable {
        nodes,
        blocks,
        items,
    })
}

impl<'a, 'g> PieceTable<'a, 'g> {
    // The triangle of an item, and which of its pieces the item is, counted from 0.
    pub fn spot(&self, item: usize) -> (Tri, u32)
        requires whole { IsPieceTable self.now }
        requires item { item < item_count self.now }
        ensures inside { has_cell self.now.nodes.rect result.0.row result.0.col ≡ true }
        ensures below { result.1 < length (pieces_of (field_by self.now.nodes) result.0) }
        ensures piece { piece_from self.now item ≡ piece_by result.0 (first_band (field_by self.now.nodes) result.0 + result.1) }
    {
        let owner = self.items.owners[item] as usize;
        (
            numbered_tri(self.nodes.rect, owner),
            item as u32 - self.items.starts[owner],
        )
    }

    // What finds the items of a triangle.
    pub fn seat(&self, tri: Tri) -> Seat
        requires whole { IsPieceTable self.now }
        requires inside { has_cell self.now.nodes.rect tri.row tri.col ≡ true }
        ensures tri { result.tri ≡ tri }
        ensures seat { IsSeat self.now result }
    {
        let place = tri_number(self.nodes.rect, tri);
        let start = self.items.starts[place];
        match self.nodes.ends(tri) {
            Some(ends) => Seat {
                tri,
                start,
                first: ends.least,
                surveyed: true,
            },
            None => Seat {
                tri,
                start,
                first: 0,
                surveyed: false,
            },
        }
    }

    // The item of the piece of a triangle at a part of a link.
    pub fn item_at(&self, seat: Seat, band: u32) -> usize
        requires whole { IsPieceTable self.now }
        requires seat { IsSeat self.now seat }
        requires piece { InMesh (field_by self.now.nodes) self.now.nodes.rect (piece_at (field_by self.now.nodes) band seat.tri) }
        ensures value { result ≡ item_by self.now (piece_at (field_by self.now.nodes) band seat.tri) }
        ensures inside { result < item_count self.now }
    {
        if !seat.surveyed {
            return seat.start as usize;
        }
        (seat.start + (band - seat.first)) as usize
    }

    // Whether a triangle has one piece.
    pub fn is_whole(&self, tri: Tri) -> bool
        requires whole { IsPieceTable self.now }
        requires inside { has_cell self.now.nodes.rect tri.row tri.col ≡ true }
        ensures { IsTrue result → length (pieces_of (field_by self.now.nodes) tri) ≡ 1 }
    {
        self.items.counts[tri_number(self.nodes.rect, tri)] == 1
    }

    // Whether two triangles have one piece each and share its item.
    pub fn share_an_item(&self, a: Tri, b: Tri) -> bool
        requires whole { IsPieceTable self.now }
        requires a { has_cell self.now.nodes.rect a.row a.col ≡ true }
        requires b { has_cell self.now.nodes.rect b.row b.col ≡ true }
        ensures { IsTrue result → (p q : Piece) → InMesh (field_by self.now.nodes) self.now.nodes.rect p → InMesh (field_by self.now.nodes) self.now.nodes.rect q → p.tri ≡ a → q.tri ≡ b → item_by self.now p ≡ item_by self.now q }
    {
        let one = tri_number(self.nodes.rect, a);
        let two = tri_number(self.nodes.rect, b);
        if self.items.starts[one] != self.items.starts[two] {
            return false;
        }
        if self.items.counts[one] != 1 {
            return false;
        }
        self.items.counts[two] == 1
    }

    // Whether two triangles are of one block, and both surveyed or neither.
    pub fn are_alike(&self, a: Seat, b: Seat) -> bool
        requires whole { IsPieceTable self.now }
        requires a { IsSeat self.now a }
        requires b { IsSeat self.now b }
        ensures { result ≡ alike (field_by self.now.nodes) (block_by self.now.blocks) a.tri b.tri }
    {
        a.surveyed == b.surveyed && self.block(a.tri) == self.block(b.tri)
    }

    // The number of the block that has a triangle.
    pub fn block(&self, tri: Tri) -> u32
        requires whole { IsPieceTable self.now }
        requires inside { has_cell self.now.nodes.rect tri.row tri.col ≡ true }
        ensures { result ≡ block_by self.now.blocks tri.row tri.col }
    {
        block_of(&self.nodes, self.blocks, tri)
    }
}
