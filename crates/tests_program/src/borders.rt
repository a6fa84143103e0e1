// A cell with a depth area whose border is another's.
use cell_reader::read_cell;
use chart_model::{Parts, Pointer};
use std::alloc::{AllocError, Global};
use std::test::Fail;
use testing_runs::{NONE, THREE, expect, holding, shelf_of};

// A hole in the survey.
const HOLE: &str = "10 10 10\n10 -9999 10\n10 10 10\n";

// The pointer of a depth area to its border, a pointer of the coverage to another edge, and the area's number.
#[derive(Clone, Copy)]
struct Borders {
    own: [u8; 8],
    other: [u8; 8],
    area: u32,
}

// A pointer as a feature's record holds it.
fn bytes_of(pointer: &Pointer) -> [u8; 8] {
    let [a, b, c, d] = pointer.rcid.to_le_bytes();
    [
        pointer.rcnm,
        a,
        b,
        c,
        d,
        pointer.ornt,
        pointer.usag,
        pointer.mask,
    ]
}

fn borders_of(parts: &Parts) -> Option<Borders> {
    let features = parts.features.as_slice();
    let area = features.iter().find(|it| it.objl == 42)?;
    let cover = features.iter().find(|it| it.objl == 302)?;
    let own = area.pointers.as_slice().iter().find(|it| it.usag == 3)?;
    let all = cover.pointers.as_slice();
    let other = all.iter().find(|it| it.rcid != own.rcid)?;
    Some(Borders {
        own: bytes_of(own),
        other: bytes_of(other),
        area: area.rcid,
    })
}

fn borders_in(alloc: Global, cell: &[u8]) -> Result<Borders, Fail> {
    if cell.len() > 4_000_000_000 {
        return Err(Fail::new("the cell is too long"));
    }
    let chart = read_cell(alloc, cell).ok().ok_or("no chart")?;
    Ok(borders_of(chart.parts()).ok_or("no borders")?)
}

// The cell of a grid with a hole.
fn cell_with_hole(alloc: Global) -> Result<Vec<u8>, Fail> {
    let mut shelf = shelf_of(alloc, THREE, HOLE, NONE)?;
    let line = "0|areas 3 contours 0 soundings 2 bytes 3443";
    expect(alloc, &mut shelf, "compile G1 S0 CELL", line)?;
    let bytes = shelf.bytes_of("CELL").ok_or("no cell")?;
    Ok(Vec::from_slice(alloc, bytes)?)
}

// Where these bytes stand for the second time: the pointers of the coverage come before those of the areas.
fn second_place(cell: &[u8], these: &[u8]) -> Option<usize> {
    let mut before = false;
    for at in 0..cell.len() {
        if cell[at..].starts_with(these) {
            if before {
                return Some(at);
            }
            before = true;
        }
    }
    None
}

// A cell with eight other bytes at a place.
fn with_bytes(
    alloc: Global,
    cell: &[u8],
    at: usize,
    these: [u8; 8],
) -> Result<Vec<u8>, AllocError> {
    let mut changed = Vec::with_capacity(alloc, cell.len())?;
    for (k, byte) in cell.iter().enumerate() {
        let byte = if at <= k && k - at < 8 {
            these[k - at]
        } else {
            *byte
        };
        changed.push(byte)?;
    }
    Ok(changed)
}

#[test]
fn an_area_with_another_border(rt: HostRuntime) -> Result<(), Fail> {
    let alloc: Global = rt.alloc();
    let cell = cell_with_hole(alloc)?;
    let borders = borders_in(alloc, &cell)?;
    let at = second_place(&cell, &borders.own).ok_or("no pointer")?;
    let cell = with_bytes(alloc, &cell, at, borders.other)?;
    let mut shelf = holding(alloc, 100, "CELL", &cell)?;
    let wanted = format!(in alloc; "1|refused cell 9 {}", borders.area)?;
    expect(alloc, &mut shelf, "info CELL", wanted.as_str())?;
    Ok(())
}
