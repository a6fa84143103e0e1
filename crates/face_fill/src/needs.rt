// The need of a rectangle of cells, and blocks by need.
ghost use Rattle.std.specs.Prelude.{◌≡◌, ◌⊎◌, ◌↔◌, ℕ, ◌<◌, ◌≤◌, IfOk, IsTrue, length, slice_index};
ghost use Rattle.mesh_definitions.specs.Blocks.{AreByNeed, IsCut, IsSubRect, IsNeed};
ghost use Rattle.mesh_definitions.specs.Mesh.{all_cells};
ghost use Rattle.face_fill.specs.BandTableView.{field_by, HasNodeBands};
ghost use Rattle.face_fill.specs.PieceTableView.{IsPieceTable, block_by};
ghost use Rattle.tri_mesh.specs.Cells.{all_of, block_in, rect_of};
ghost use Rattle.tri_mesh.specs.Fields.{field_in};
ghost use Rattle.tri_mesh.specs.Views.{blocks_view};

use crate::band_table::read_bands;
use crate::class_bound::is_small;
use crate::joins::number_items;
use crate::piece_table::list_pieces;
use crate::tables::{BandTable, PieceTable, Tally};
use crate::tally::tally_all;
use depth_rounding::Levels;
use mesh_definitions::Rect;
use shoal_buffer::Charted;
use std::alloc::{AllocError, Global};
use tri_mesh::Blocks;

// The greatest of counts.
pub(crate) fn greatest(tally: &Tally) -> u32
    ensures outline { tally.now.outline ≤ result }
    ensures counts { (k : ℕ) → k < length tally.now.counts.items → slice_index tally.now.counts.items k ≤ result }
    ensures one { (result ≡ tally.now.outline) ⊎ ((k : ℕ) × (k < length tally.now.counts.items) × (slice_index tally.now.counts.items k ≡ result)) }
{
    let mut most = tally.outline;
    for count in &tally.counts {
        if *count > most {
            most = *count;
        }
    }
    most
}

// The need of the rectangle of a table of pieces that are all of one block.
fn need_of(alloc: Global, table: PieceTable) -> Result<u64, AllocError>
    requires whole { IsPieceTable table }
    requires one { block_by table.blocks ≡ (λ i j. 0) }
    ensures { IfOk result (IsNeed (field_by table.entry.nodes) table.entry.nodes.rect) }
{
    let found = number_items(alloc, &table)?;
    let counts = vec![in alloc; 0; found.count as usize]?;
    let mut tally = Tally { counts, outline: 0 };
    tally_all(&table, &found.numbers, &mut tally);
    Ok(u64::from(greatest(&tally)))
}

/// The need of a rectangle of cells, as a mesh by itself: the greatest of the lengths, in sub-segments, of its outline and
/// of the boundaries of its faces. It takes time in proportion to the pieces, and of memory 2 bytes a node, 5 bytes
/// a triangle, at most 12 bytes a piece or run of pieces and 4 bytes a face. It fails only for want of memory.
pub fn need<'a>(
    alloc: Global,
    ch: &'a Charted,
    levels: &'a Levels,
    rect: Rect,
) -> Result<u64, AllocError>
    requires { IsSubRect rect (all_cells (field_in ch.now levels.now)) }
    ensures { IfOk result (IsNeed (field_in ch.now levels.now) rect) }
{
    let nodes = read_bands(alloc, ch, levels, rect)?;
    let table = list_pieces(alloc, nodes, None)?;
    need_of(alloc, table)
}

// The need over which a rectangle is cut. A record of a cell has at most 99,999 bytes, since its leader has five digits for
// its length, and each sub-segment of a boundary takes 8 of them, as a point of an edge or as an area's pointer to an edge.
pub(crate) const NEED_LIMIT: u64 = 12000;

// The greatest side in cells of a rectangle that isn't cut whatever its need: with 20 levels, 16 by 16 cells ask for no more
// than the limit anyway (small_laws), so their need isn't found.
const UNCUT_SIDE: usize = 16;

// The greatest number of items of a table whose need is first bounded by classes: where pieces are many, the bound seldom
// holds, and their faces are numbered at once.
const FEW_ITEMS: usize = 24000;

// Whether the need of a table's rectangle is over 12,000. Many needs are seen to be small by classes alone.
fn needs_much(alloc: Global, table: PieceTable) -> Result<bool, AllocError>
    requires whole { IsPieceTable table }
    requires one { block_by table.blocks ≡ (λ i j. 0) }
    ensures { IfOk result (λ b. IsTrue b ↔ ((n : ℕ) × IsNeed (field_by table.entry.nodes) table.entry.nodes.rect n × (12000 < n))) }
{
    if table.items.owners.len() <= FEW_ITEMS && is_small(alloc, &table)? {
        return Ok(false);
    }
    let need = need_of(alloc, table)?;
    Ok(need > NEED_LIMIT)
}

// Whether a rectangle is cut: its need is over 12,000, and it has a side over 16 cells. Bands of all nodes are given.
fn is_cut(alloc: Global, all: &BandTable, rect: Rect) -> Result<bool, AllocError>
    requires nodes { HasNodeBands all.now }
    requires inside { IsSubRect rect all.now.rect }
    ensures { IfOk result (λ b. IsTrue b ↔ IsCut (field_by all.now) rect) }
{
    if rect.rows <= UNCUT_SIDE && rect.cols <= UNCUT_SIDE {
        return Ok(false);
    }
    let table = list_pieces(alloc, all.part(alloc, rect)?, None)?;
    needs_much(alloc, table)
}

/// The blocks by need of a generalised grid: from one block of all cells on, each one is halved while its need is over
/// 12,000 and it has a side over 16 cells. It fails only for want of memory.
pub fn by_need<'a>(alloc: Global, ch: &'a Charted, levels: &'a Levels) -> Result<Blocks, AllocError>
    ensures all { IfOk result (λ b. all_of (blocks_view b) ≡ all_cells (field_in ch.now levels.now)) }
    ensures by_need { IfOk result (λ b. AreByNeed (field_in ch.now levels.now) (length (blocks_view b).rects) (rect_of (blocks_view b)) (block_in (blocks_view b))) }
{
    let grid = ch.grid();
    let mut blocks = Blocks::whole(alloc, grid.rows(), grid.cols())?;
    let all = read_bands(alloc, ch, levels, blocks.rect(0))?;
    let mut count = blocks.count();
    let mut block = 0;
    while block < count {
        if is_cut(alloc, &all, blocks.rect(block))? {
            blocks.halve(block)?;
            count = blocks.count();
        } else {
            block += 1;
        }
    }
    Ok(blocks)
}
