// Making and reading the table of bands of nodes.
ghost use Rattle.std.specs.Prelude.{◌≡◌, ◌+◌, ◌-◌, ◌<◌, ◌≤◌, min, max, IfOk, length, true};
ghost use Rattle.mesh_definitions.specs.Blocks.{IsSubRect};
ghost use Rattle.mesh_definitions.specs.Field.{node_band};
ghost use Rattle.mesh_definitions.specs.Mesh.{all_cells, has_cell};
ghost use Rattle.face_fill.specs.Corners.{AreNodeBands, node_of, ends_of_three, ends_of};
ghost use Rattle.face_fill.specs.BandTableView.{field_by, HasNodeBands};
ghost use Rattle.shoal_buffer.specs.Views.{charted_view};
ghost use Rattle.tri_mesh.specs.Fields.{field_in};

use crate::tables::{BandTable, Ends};
use depth_grid::NodeId;
use depth_rounding::Levels;
use mesh_definitions::{Rect, Tri};
use shoal_buffer::Charted;
use std::alloc::{AllocError, Global};

// The band of a node, none without data. There are at most 20 levels, so a band fits in a byte.
fn band_at(node: NodeId, ch: &Charted, levels: &Levels) -> Option<u8>
    requires row { node.row < length (charted_view ch.now).grid.ys }
    requires col { node.col < length (charted_view ch.now).grid.xs }
    ensures { result ≡ node_band (field_in ch.now levels.now) node }
{
    match ch.c(node) {
        Some(c) => Some(levels.band(c) as u8),
        None => None,
    }
}

// The bands of the nodes of a rectangle.
fn bands_of(
    alloc: Global,
    ch: &Charted,
    levels: &Levels,
    rect: Rect,
) -> Result<Vec<Option<u8>>, AllocError>
    requires { IsSubRect rect (all_cells (field_in ch.now levels.now)) }
    ensures { IfOk result (λ bands. AreNodeBands (field_in ch.now levels.now) rect bands.items) }
{
    let width = rect.cols + 1;
    let count = (rect.rows + 1) * width;
    let mut bands = Vec::with_capacity(alloc, count)?;
    for place in 0..count {
        let node = NodeId {
            row: rect.row + place / width,
            col: rect.col + place % width,
        };
        bands.push(band_at(node, ch, levels))?;
    }
    Ok(bands)
}

pub(crate) fn lesser(a: u8, b: u8) -> u8
    ensures { result ≡ min a b }
{
    if b < a { b } else { a }
}

pub(crate) fn greater(a: u8, b: u8) -> u8
    ensures { result ≡ max a b }
{
    if a < b { b } else { a }
}

// The least and the greatest of three bands, where each is known.
fn ends_of_three(a: Option<u8>, b: Option<u8>, c: Option<u8>) -> Option<Ends>
    ensures { result ≡ ends_of_three a b c }
{
    let Some(a) = a else { return None };
    let Some(b) = b else { return None };
    let Some(c) = c else { return None };
    Some(Ends {
        least: u32::from(lesser(lesser(a, b), c)),
        greatest: u32::from(greater(greater(a, b), c)),
    })
}

// Makes the table of the bands of a rectangle.
pub(crate) fn read_bands<'a, 'g>(
    alloc: Global,
    ch: &'a Charted<'g>,
    levels: &'a Levels,
    rect: Rect,
) -> Result<BandTable<'a, 'g>, AllocError>
    requires { IsSubRect rect (all_cells (field_in ch.now levels.now)) }
    ensures nodes { IfOk result HasNodeBands }
    ensures rect { IfOk result (λ n. n.rect ≡ rect) }
    ensures field { IfOk result (λ n. field_by n ≡ field_in ch.now levels.now) }
{
    let bands = bands_of(alloc, ch, levels, rect)?;
    Ok(BandTable {
        ch,
        levels,
        rect,
        bands,
    })
}

// The bands of the nodes of a rectangle, from those of one that has it.
fn bands_within(alloc: Global, all: &BandTable, rect: Rect) -> Result<Vec<Option<u8>>, AllocError>
    requires nodes { HasNodeBands all.now }
    requires inside { IsSubRect rect all.now.rect }
    ensures { IfOk result (λ bands. AreNodeBands (field_by all.now) rect bands.items) }
{
    let width = rect.cols + 1;
    let count = (rect.rows + 1) * width;
    let mut bands = Vec::with_capacity(alloc, count)?;
    for place in 0..count {
        bands.push(all.band(rect.row + place / width, rect.col + place % width))?;
    }
    Ok(bands)
}

impl<'a, 'g> BandTable<'a, 'g> {
    // The band of a node, none without data.
    pub fn band(&self, row: usize, col: usize) -> Option<u8>
        requires nodes { HasNodeBands self.now }
        requires north { self.now.rect.row ≤ row }
        requires south { row ≤ self.now.rect.row + self.now.rect.rows }
        requires west { self.now.rect.col ≤ col }
        requires east { col ≤ self.now.rect.col + self.now.rect.cols }
        ensures { result ≡ node_band (field_by self.now) (node_of row col) }
    {
        self.bands[(row - self.rect.row) * (self.rect.cols + 1) + (col - self.rect.col)]
    }

    // The least and the greatest band of a triangle, none where it is unsurveyed.
    pub fn ends(&self, tri: Tri) -> Option<Ends>
        requires nodes { HasNodeBands self.now }
        requires inside { has_cell self.now.rect tri.row tri.col ≡ true }
        ensures { result ≡ ends_of (field_by self.now) tri }
    {
        let north_east = self.band(tri.row, tri.col + 1);
        let south_west = self.band(tri.row + 1, tri.col);
        if tri.upper {
            ends_of_three(self.band(tri.row, tri.col), north_east, south_west)
        } else {
            ends_of_three(south_west, north_east, self.band(tri.row + 1, tri.col + 1))
        }
    }

    // The table of a rectangle within this one's.
    pub fn part(&self, alloc: Global, rect: Rect) -> Result<BandTable<'a, 'g>, AllocError>
        requires nodes { HasNodeBands self.now }
        requires inside { IsSubRect rect self.now.rect }
        ensures nodes { IfOk result HasNodeBands }
        ensures rect { IfOk result (λ n. n.rect ≡ rect) }
        ensures field { IfOk result (λ n. field_by n ≡ field_by self.now) }
    {
        let bands = bands_within(alloc, self, rect)?;
        Ok(BandTable {
            ch: self.ch,
            levels: self.levels,
            rect,
            bands,
        })
    }
}
