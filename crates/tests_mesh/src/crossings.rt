// Slots and chords, by a worked grid.
use depth_grid::{Grid, NodeId, Reach};
use depth_rounding::{Bands, Levels};
use grid_reader::{Sense, read_grid};
use plane_geom::{Point, Seg};
use shoal_buffer::{Charted, generalise};
use std::alloc::{AllocError, Global};
use std::test::Fail;
use tri_mesh::{MeshEdge, Tri, chord, slots};

// The grid of a text.
pub(crate) fn grid_of(alloc: Global, text: &str) -> Result<Grid, Fail> {
    match read_grid(alloc, text.as_bytes(), Sense::Down) {
        Ok(grid) => Ok(grid),
        Err(_) => Err(Fail::from("no grid")),
    }
}

// The grid as it is, without a disc.
pub(crate) fn charted<'g>(alloc: Global, grid: &'g Grid) -> Result<Charted<'g>, AllocError> {
    let alone = Reach {
        aspect: 1000,
        radius: 0,
    };
    generalise(alloc, grid, &alone, &Bands::usual())
}

fn seg(ends: [i32; 4]) -> Seg {
    let [ax, ay, bx, by] = ends;
    Seg {
        a: Point { x: ax, y: ay },
        b: Point { x: bx, y: by },
    }
}

// The slots from a node to another, none where they aren't two nodes of the grid.
fn slots_of(
    ch: &Charted,
    levels: &Levels,
    a: NodeId,
    b: NodeId,
    into: &mut [u32; 20],
) -> Option<usize> {
    let rows = ch.grid().rows();
    let cols = ch.grid().cols();
    if a.row >= rows || a.col >= cols || b.row >= rows || b.col >= cols || a == b {
        return None;
    }
    Some(slots(MeshEdge { a, b }, ch, levels, into))
}

fn chord_of(ch: &Charted, levels: &Levels, upper: bool, k: u32) -> Option<Seg> {
    if ch.grid().rows() < 2 || ch.grid().cols() < 2 {
        return None;
    }
    let tri = Tri {
        row: 0,
        col: 0,
        upper,
    };
    chord(tri, k, ch, levels)
}

// A node that equals a level: the crossing keeps off it. The deep side is east, so chords run north.
#[test]
fn crossings_keep_off_nodes(rt: HostRuntime) -> Result<(), Fail> {
    let grid = grid_of(
        rt.alloc(),
        "ncols 2 nrows 2 xllcenter 0 yllcenter 0 cellsize 0.0032 4 5 4 5",
    )?;
    let ch = charted(rt.alloc(), &grid)?;
    let levels = Levels::new(&[50]);
    let west = NodeId { row: 0, col: 0 };
    let east = NodeId { row: 0, col: 1 };
    for (a, b) in [(west, east), (east, west)] {
        let mut into = [0; 20];
        assert_eq!(rt; slots_of(&ch, &levels, a, b, &mut into), Some(1));
        assert_eq!(rt; into[0], 31_999);
    }
    let mut into = [0; 20];
    let level = slots_of(&ch, &levels, west, NodeId { row: 1, col: 0 }, &mut into);
    assert_eq!(rt; level, Some(0));
    let upper = chord_of(&ch, &levels, true, 1);
    assert_eq!(rt; upper, Some(seg([31_999, 31_999, 31_999, 32_000])));
    let lower = chord_of(&ch, &levels, false, 1);
    assert_eq!(rt; lower, Some(seg([31_999, 0, 31_999, 31_999])));
    Ok(())
}
