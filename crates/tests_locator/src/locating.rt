// One `Locator` over the chart of the sample, asked for 120,000 points, and the mesh of the same grid at each of them.
ghost use Rattle.std.specs.Prelude.{◌≡◌};
ghost use Rattle.mesh_definitions.specs.Mesh.{all_cells};
ghost use Rattle.tri_mesh.specs.Cells.{all_of};
ghost use Rattle.tri_mesh.specs.Fields.{field_in};
ghost use Rattle.tri_mesh.specs.Views.{blocks_view};

use cell_reader::read_cell;
use chart_compile::compile;
use chart_model::{Attribute, Chart, Parts};
use chart_query::{Locator, Place};
use chart_sample::{sample_grid, sample_sheet};
use depth_grid::Grid;
use depth_rounding::Levels;
use exact_num::decimetres_text;
use face_fill::by_need;
use plane_geom::Point;
use rule_sheet::Sheet;
use shoal_buffer::{Charted, generalise};
use std::alloc::{AllocError, Global};
use std::process::Abort;
use std::test::Fail;
use tri_mesh::{Blocks, Class, Ground, class_at};

// What a band's area says.
fn range_line(
    alloc: Global,
    ch: &Charted,
    levels: &Levels,
    band: u32,
) -> Result<String, AllocError> {
    match ch.extent() {
        Some((least, greatest)) if band <= levels.count() => {
            let (shoaler, deeper) = levels.range(band, least, greatest);
            let shoaler = decimetres_text(alloc, shoaler)?;
            let deeper = decimetres_text(alloc, deeper)?;
            format!(in alloc; "42 {shoaler} {deeper}")
        }
        _ => String::from_str(alloc, "no range"),
    }
}

// What each band's area says, the shoalest band first.
fn range_lines(alloc: Global, ch: &Charted, levels: &Levels) -> Result<Vec<String>, AllocError> {
    let mut lines = Vec::new(alloc);
    for band in 0..=levels.count() {
        lines.push(range_line(alloc, ch, levels, band)?)?;
    }
    Ok(lines)
}

// What the mesh has at a point.
fn meshed(alloc: Global, ranges: &[String], ground: Ground) -> Result<String, AllocError> {
    match ground {
        Ground::Outside => String::from_str(alloc, "outside"),
        Ground::Line => String::from_str(alloc, "edge"),
        Ground::Inside(Class::Unsurveyed) => String::from_str(alloc, "154"),
        Ground::Inside(Class::Band(band)) => match ranges.get(band as usize) {
            Some(range) => String::from_str(alloc, range.as_str()),
            None => String::from_str(alloc, "no range"),
        },
    }
}

fn put_area(parts: &Parts, place: usize, line: &mut String) -> Result<(), AllocError> {
    let Some(feature) = parts.features.as_slice().get(place) else {
        return line.push_str("no feature");
    };
    write_area(feature.objl, feature.attributes.as_slice(), line)
}

fn write_area(objl: u16, attributes: &[Attribute], line: &mut String) -> Result<(), AllocError> {
    write!(line, "{objl}")?;
    for attribute in attributes {
        line.push_str(" ")?;
        for byte in attribute.text.as_slice() {
            line.push(char::from(*byte))?;
        }
    }
    Ok(())
}

// What the chart has at a point.
fn charted(alloc: Global, parts: &Parts, place: &Place) -> Result<String, AllocError> {
    match place {
        Place::Outside => String::from_str(alloc, "outside"),
        Place::Edge => String::from_str(alloc, "edge"),
        Place::Areas(found) => {
            let mut line = String::new(alloc);
            for place in found.as_slice() {
                put_area(parts, *place, &mut line)?;
            }
            Ok(line)
        }
    }
}

// The points 16 units east and north of each cell's south-western node.
fn points(alloc: Global, grid: &Grid) -> Result<Vec<Point>, AllocError> {
    let mut points = Vec::new(alloc);
    for row in 1..grid.rows() {
        for col in 1..grid.cols() {
            points.push(Point {
                x: grid.x(col - 1).wrapping_add(16),
                y: grid.y(row).wrapping_add(16),
            })?;
        }
    }
    Ok(points)
}

fn sample_chart(alloc: Global, grid: &Grid, sheet: &Sheet) -> Result<Chart, Fail> {
    let compiled = compile(alloc, grid, sheet)?;
    if compiled.bytes.len() > 4_000_000_000 {
        return Err(Fail::from("too large"));
    }
    match read_cell(alloc, &compiled.bytes) {
        Ok(chart) => Ok(chart),
        Err(_) => Err(Fail::from("no chart")),
    }
}

// What the chart and the mesh have at a point.
fn both(
    alloc: Global,
    locator: &Locator,
    parts: &Parts,
    ch: &Charted,
    levels: &Levels,
    blocks: &Blocks,
    ranges: &[String],
    p: Point,
) -> Result<(String, String), AllocError>
    requires { all_of (blocks_view blocks.now) ≡ all_cells (field_in ch.now levels.now) }
{
    let place = locator.at(alloc, p)?;
    let charted = charted(alloc, parts, &place)?;
    let meshed = meshed(alloc, ranges, class_at(ch, levels, blocks, p))?;
    Ok((charted, meshed))
}

fn expect_point(
    rt: &impl Abort,
    alloc: Global,
    locator: &Locator,
    parts: &Parts,
    ch: &Charted,
    levels: &Levels,
    blocks: &Blocks,
    ranges: &[String],
    p: Point,
) -> Result<(), AllocError>
    requires { all_of (blocks_view blocks.now) ≡ all_cells (field_in ch.now levels.now) }
{
    let (charted, meshed) = both(alloc, locator, parts, ch, levels, blocks, ranges, p)?;
    assert_eq!(rt; charted.as_str(), meshed.as_str(), "{} {}", p.x, p.y);
    Ok(())
}

fn expect_points(
    rt: &impl Abort,
    alloc: Global,
    chart: &Chart,
    ch: &Charted,
    levels: &Levels,
    blocks: &Blocks,
    points: &[Point],
) -> Result<(), AllocError>
    requires { all_of (blocks_view blocks.now) ≡ all_cells (field_in ch.now levels.now) }
{
    let locator = Locator::new(alloc, chart)?;
    let ranges = range_lines(alloc, ch, levels)?;
    for p in points {
        expect_point(
            rt,
            alloc,
            &locator,
            chart.parts(),
            ch,
            levels,
            blocks,
            &ranges,
            *p,
        )?;
    }
    Ok(())
}

fn expect_grid(
    rt: &impl Abort,
    alloc: Global,
    chart: &Chart,
    ch: &Charted,
    levels: &Levels,
) -> Result<(), AllocError> {
    let blocks = by_need(alloc, ch, levels)?;
    let points = points(alloc, ch.grid())?;
    assert_eq!(rt; points.len(), 120_000);
    expect_points(rt, alloc, chart, ch, levels, &blocks, &points)
}

#[test]
fn points_of_the_sample(rt: HostRuntime) -> Result<(), Fail> {
    let alloc: Global = rt.alloc();
    let grid = sample_grid(alloc, 1)?;
    let sheet = sample_sheet();
    let chart = sample_chart(alloc, &grid, &sheet)?;
    let ch = generalise(alloc, &grid, &sheet.disc, &sheet.bands)?;
    expect_grid(&rt, alloc, &chart, &ch, &sheet.levels)?;
    Ok(())
}
