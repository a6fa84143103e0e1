// Numbering the faces of a generalised grid.
ghost use Rattle.std.specs.Prelude.{◌≡◌, ◌+◌, ◌<◌, IfOk, length, cond, true};
ghost use Rattle.mesh_definitions.specs.Mesh.{all_cells, has_cell, surveyed};
ghost use Rattle.mesh_definitions.specs.Pieces.{pieces_of};
ghost use Rattle.mesh_definitions.specs.declared.Class.TheVariants.{Unsurveyed, Band};
ghost use Rattle.face_fill.specs.Filled.{AreKinds};
ghost use Rattle.face_fill.specs.BandTableView.{field_by};
ghost use Rattle.face_fill.specs.Joins.{AreItemNumbers};
ghost use Rattle.face_fill.specs.Numbered.{AreFaces, first_band};
ghost use Rattle.face_fill.specs.PieceTableView.{IsPieceTable, block_by, item_count};
ghost use Rattle.face_fill.specs.Views.{faces_view};
ghost use Rattle.tri_mesh.specs.Cells.{all_of, block_in};
ghost use Rattle.tri_mesh.specs.Fields.{field_in};
ghost use Rattle.tri_mesh.specs.Views.{blocks_view};

use crate::Faces;
use crate::band_table::read_bands;
use crate::joins::number_items;
use crate::piece_table::list_pieces;
use crate::tables::PieceTable;
use depth_rounding::Levels;
use mesh_definitions::{Class, Rect, Tri};
use shoal_buffer::Charted;
use std::alloc::{AllocError, Global};
use tri_mesh::Blocks;

// The class and the block of each face.
#[derive(Drop)]
struct Kinds {
    classes: Vec<Class>,
    blocks: Vec<u32>,
}

// The class of a piece of a triangle, counted from its first.
pub(crate) fn class_of(table: &PieceTable, tri: Tri, offset: u32) -> Class
    requires whole { IsPieceTable table.now }
    requires inside { has_cell table.now.nodes.rect tri.row tri.col ≡ true }
    requires below { offset < length (pieces_of (field_by table.now.nodes) tri) }
    ensures { result ≡ cond (surveyed (field_by table.now.nodes) tri) (Band (first_band (field_by table.now.nodes) tri + offset)) Unsurveyed }
{
    match table.nodes.ends(tri) {
        Some(ends) => Class::Band(ends.least + offset),
        None => Class::Unsurveyed,
    }
}

// The class and the block of each face, from those of its items.
fn kinds_of(
    alloc: Global,
    table: &PieceTable,
    numbers: &[u32],
    count: u32,
) -> Result<Kinds, AllocError>
    requires whole { IsPieceTable table.now }
    requires numbered { AreItemNumbers table.now numbers.now count }
    ensures { IfOk result (λ k. AreKinds (field_by table.now.nodes) table.now.nodes.rect (block_by table.now.blocks) table.now.items.starts.items table.now.items.owners.items numbers.now count (item_count table.now) k.classes.items k.blocks.items) }
{
    let mut classes = vec![in alloc; Class::Unsurveyed; count as usize]?;
    let mut blocks = vec![in alloc; 0; count as usize]?;
    for item in 0..numbers.len() {
        let (tri, offset) = table.spot(item);
        let face = numbers[item] as usize;
        classes[face] = class_of(table, tri, offset);
        blocks[face] = table.block(tri);
    }
    Ok(Kinds { classes, blocks })
}

/// Numbers the faces of a generalised grid: two pieces have one number exactly where chains of adjacent pieces of one
/// class and one block join them, and the numbers run from 0 without a gap. It takes time in proportion to the pieces,
/// and of memory 2 bytes a node, 5 bytes a triangle, at most 12 bytes a piece or run of pieces and 12 bytes a face. It fails only for want
/// of memory.
pub fn fill<'a>(
    alloc: Global,
    ch: &'a Charted,
    levels: &'a Levels,
    blocks: &'a Blocks,
) -> Result<Faces, AllocError>
    requires fit { all_of (blocks_view blocks.now) ≡ all_cells (field_in ch.now levels.now) }
    ensures { IfOk result (λ faces. AreFaces (field_in ch.now levels.now) (block_in (blocks_view blocks.now)) (faces_view faces)) }
{
    let grid = ch.grid();
    let rect = Rect {
        row: 0,
        col: 0,
        rows: grid.rows() - 1,
        cols: grid.cols() - 1,
    };
    let nodes = read_bands(alloc, ch, levels, rect)?;
    let table = list_pieces(alloc, nodes, Some(blocks))?;
    let found = number_items(alloc, &table)?;
    let kinds = kinds_of(alloc, &table, &found.numbers, found.count)?;
    let items = table.items;
    Ok(Faces {
        rows: rect.rows,
        cols: rect.cols,
        starts: items.starts,
        counts: items.counts,
        numbers: found.numbers,
        classes: kinds.classes,
        blocks: kinds.blocks,
    })
}
