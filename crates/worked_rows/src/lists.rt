// What a cell has, as one text of sorted lines.
use crate::bench::wrong;
use crate::spatial::edge_text;
use cell_reader::read_cell;
use chart_model::{Attribute, Chart, Feature, Pointer, Shape, Sounding};
use s57_codes::code::{DEPCNT, EDGE, HIDDEN};
use std::alloc::{AllocError, Global};
use testing_runs::Wrong;

// A list of a cell's chart.
#[derive(Clone, Copy)]
enum List {
    Soundings,
    Contours,
    Features,
    Pointers,
    Masks,
    Hidden,
}

fn list_named(what: &str) -> Option<List> {
    match what {
        "soundings" => Some(List::Soundings),
        "contours" => Some(List::Contours),
        "features" => Some(List::Features),
        "pointers" => Some(List::Pointers),
        "masks" => Some(List::Masks),
        "hidden" => Some(List::Hidden),
        _ => None,
    }
}

// `X Y DEPTH`, in ten-millionths of a degree and decimetres.
fn put_soundings(
    alloc: Global,
    soundings: &[Sounding],
    lines: &mut Vec<String>,
) -> Result<(), AllocError> {
    for sounding in soundings {
        let at = sounding.at;
        let line = format!(in alloc; "{} {} {}", at.x, at.y, sounding.depth)?;
        lines.push(line)?;
    }
    Ok(())
}

fn soundings(alloc: Global, chart: &Chart) -> Result<Vec<String>, AllocError> {
    let mut lines = Vec::new(alloc);
    for node in chart.parts().isolated.as_slice() {
        if let Shape::Soundings(soundings) = &node.shape {
            put_soundings(alloc, soundings.as_slice(), &mut lines)?;
        }
    }
    Ok(lines)
}

// ` ATTL=ATVL`
fn put_attribute(
    alloc: Global,
    attribute: &Attribute,
    line: &mut String,
) -> Result<(), AllocError> {
    let code = attribute.code;
    let text = std::str::from_utf8(attribute.text.as_slice()).unwrap_or("?");
    let piece = format!(in alloc; " {code}={text}")?;
    line.push_str(piece.as_str())
}

// `PRIM GRUP OBJL ATTL=ATVL ..`
fn feature_line(alloc: Global, feature: &Feature) -> Result<String, AllocError> {
    let mut line = format!(in alloc; "{} {} {}", feature.prim, feature.grup, feature.objl)?;
    for attribute in feature.attributes.as_slice() {
        put_attribute(alloc, attribute, &mut line)?;
    }
    Ok(line)
}

fn features(alloc: Global, chart: &Chart) -> Result<Vec<String>, AllocError> {
    let mut lines = Vec::new(alloc);
    for feature in chart.parts().features.as_slice() {
        lines.push(feature_line(alloc, feature)?)?;
    }
    Ok(lines)
}

// The text of a contour's depth.
fn depth_text(contour: &Feature) -> &str {
    match contour.attributes.as_slice() {
        [depth, ..] => std::str::from_utf8(depth.text.as_slice()).unwrap_or("?"),
        [] => "?",
    }
}

// `VALDCO: X Y, X Y ..` for each edge of a contour.
fn put_contour(
    alloc: Global,
    chart: &Chart,
    contour: &Feature,
    lines: &mut Vec<String>,
) -> Result<(), AllocError> {
    let depth = depth_text(contour);
    for pointer in contour.pointers.as_slice() {
        let points = edge_text(alloc, chart, pointer.rcid)?;
        lines.push(format!(in alloc; "{depth}: {points}")?)?;
    }
    Ok(())
}

fn contours(alloc: Global, chart: &Chart) -> Result<Vec<String>, AllocError> {
    let mut lines = Vec::new(alloc);
    for feature in chart.parts().features.as_slice() {
        if feature.objl == DEPCNT {
            put_contour(alloc, chart, feature, &mut lines)?;
        }
    }
    Ok(lines)
}

// `OBJL USAG MASK`, and where points are wanted those of the edge, `OBJL USAG MASK: X Y, X Y ..`.
fn pointer_line(
    alloc: Global,
    chart: &Chart,
    objl: u16,
    pointer: Pointer,
    with_points: bool,
) -> Result<String, AllocError> {
    let Pointer { usag, mask, .. } = pointer;
    if !with_points {
        return format!(in alloc; "{objl} {usag} {mask}");
    }
    let points = edge_text(alloc, chart, pointer.rcid)?;
    format!(in alloc; "{objl} {usag} {mask}: {points}")
}

// Whether a pointer stands in a list: it names an edge, and the list of hidden ones has those alone that are masked.
fn stands_in(list: List, pointer: Pointer) -> bool {
    pointer.rcnm == EDGE && (pointer.mask == HIDDEN || !matches!(list, List::Hidden))
}

fn put_pointers(
    alloc: Global,
    chart: &Chart,
    feature: &Feature,
    list: List,
    lines: &mut Vec<String>,
) -> Result<(), AllocError> {
    let with_points = !matches!(list, List::Masks);
    for pointer in feature.pointers.as_slice() {
        if stands_in(list, *pointer) {
            let line = pointer_line(alloc, chart, feature.objl, *pointer, with_points)?;
            lines.push(line)?;
        }
    }
    Ok(())
}

fn pointers(alloc: Global, chart: &Chart, list: List) -> Result<Vec<String>, AllocError> {
    let mut lines = Vec::new(alloc);
    for feature in chart.parts().features.as_slice() {
        put_pointers(alloc, chart, feature, list, &mut lines)?;
    }
    Ok(lines)
}

fn lines_of(alloc: Global, chart: &Chart, list: List) -> Result<Vec<String>, AllocError> {
    match list {
        List::Soundings => soundings(alloc, chart),
        List::Contours => contours(alloc, chart),
        List::Features => features(alloc, chart),
        List::Pointers | List::Masks | List::Hidden => pointers(alloc, chart, list),
    }
}

// Puts a line that stands so many times behind a text, with a bar between them.
fn put_line(alloc: Global, all: &mut String, count: u64, line: &str) -> Result<(), AllocError> {
    if !all.is_empty() {
        all.push_str("|")?;
    }
    if count > 1 {
        let times = format!(in alloc; "{count} of ")?;
        all.push_str(times.as_str())?;
    }
    all.push_str(line)
}

// Whether the line at a place is the last one of its text.
fn ends_run(lines: &[String], place: usize, line: &str) -> bool {
    match lines.get(place.saturating_add(1)) {
        Some(next) => next.as_str() != line,
        None => true,
    }
}

// Sorted lines in one text, each once with how often it stands there.
fn joined(alloc: Global, lines: &[String]) -> Result<String, AllocError> {
    let mut all = String::new(alloc);
    let mut count = 0u64;
    for (place, line) in lines.iter().enumerate() {
        count = count.saturating_add(1);
        if ends_run(lines, place, line.as_str()) {
            put_line(alloc, &mut all, count, line.as_str())?;
            count = 0;
        }
    }
    Ok(all)
}

fn chart_of(alloc: Global, cell: &[u8]) -> Result<Chart, Wrong> {
    if cell.len() > 4_000_000_000 {
        return Err(wrong(alloc, "the cell is too long"));
    }
    match read_cell(alloc, cell) {
        Ok(chart) => Ok(chart),
        Err(_) => Err(wrong(alloc, "the file is no cell")),
    }
}

/// A list of what a cell has: lines in their order as texts, with a bar between them, equal ones once behind `N of`.
pub fn list_of(alloc: Global, cell: &[u8], what: &str) -> Result<String, Wrong> {
    let Some(list) = list_named(what) else {
        return Err(wrong(alloc, "no list of this name"));
    };
    let chart = chart_of(alloc, cell)?;
    let mut lines = lines_of(alloc, &chart, list)?;
    lines.sort()?;
    let all = joined(alloc, &lines)?;
    Ok(all)
}
