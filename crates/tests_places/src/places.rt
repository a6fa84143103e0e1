// Points on each vertex, on each level, beside them and inside, worked by hand.
use cell_reader::read_cell;
use chart_model::Chart;
use chart_query::{Locator, Place, place_at};
use plane_geom::Point;
use std::alloc::{AllocError, Global};
use std::process::Abort;
use std::test::Fail;
use testing_cells::{HOUSE, file_of};

// Each vertex.
const VERTICES: &str = "\
20 0 edge
20 20 edge
10 30 edge
0 20 edge
0 0 edge
40 20 edge
40 0 edge
10 5 edge
20 12 edge
30 5 edge
";

// Within segments that are level, upright and slanting.
const SEGMENTS: &str = "\
10 0 edge
30 0 edge
30 20 edge
15 5 edge
20 5 edge
0 10 edge
20 3 edge
40 10 edge
5 25 edge
15 25 edge
";

// At the heights of vertices, and beside the ends of levels.
const HEIGHTS: &str = "\
10 20 [0]
5 5 [0]
15 12 [0]
25 12 [2]
35 5 [2]
-1 0 outside
-1 5 outside
-1 12 outside
-1 20 outside
41 20 outside
41 0 outside
9 30 outside
11 30 outside
";

// In the strips between.
const STRIPS: &str = "\
5 10 [0]
30 10 [2]
18 7 [0, 3]
22 7 [2, 3]
10 25 [0]
20 25 outside
50 10 outside
10 31 outside
10 -1 outside
-2147483648 2147483647 outside
2147483647 -2147483648 outside
";

// A row: a point, and its place as `told` has it.
fn row(line: &str) -> Option<(Point, &str)> {
    let Some((x, rest)) = line.split_once(' ') else {
        return None;
    };
    let Some((y, wanted)) = rest.split_once(' ') else {
        return None;
    };
    match (x.parse::<i32>(), y.parse::<i32>()) {
        (Ok(x), Ok(y)) => Some((Point { x, y }, wanted)),
        _ => None,
    }
}

// A place as one text: the positions of the areas with commas between.
fn told(alloc: Global, place: &Place) -> Result<String, AllocError> {
    match place {
        Place::Outside => String::from_str(alloc, "outside"),
        Place::Edge => String::from_str(alloc, "edge"),
        Place::Areas(found) => format!(in alloc; "{:?}", found.as_slice()),
    }
}

// What a `Locator` and the pass over all areas say of a point.
fn both(
    alloc: Global,
    chart: &Chart,
    locator: &Locator,
    p: Point,
) -> Result<(String, String), AllocError> {
    let by_strips = locator.at(alloc, p)?;
    let by_one_pass = place_at(alloc, chart, p)?;
    Ok((told(alloc, &by_strips)?, told(alloc, &by_one_pass)?))
}

fn expect_row(
    rt: &impl Abort,
    alloc: Global,
    chart: &Chart,
    locator: &Locator,
    line: &str,
) -> Result<(), AllocError> {
    let Some((p, wanted)) = row(line) else {
        assert!(rt; false, "no row: {line}");
        return Ok(());
    };
    let (by_strips, by_one_pass) = both(alloc, chart, locator, p)?;
    assert_eq!(rt; by_strips.as_str(), wanted, "{line}");
    assert_eq!(rt; by_one_pass.as_str(), wanted, "{line}");
    Ok(())
}

fn expect(
    rt: &impl Abort,
    alloc: Global,
    chart: &Chart,
    locator: &Locator,
    rows: &str,
) -> Result<(), AllocError> {
    for line in rows.lines() {
        expect_row(rt, alloc, chart, locator, line)?;
    }
    Ok(())
}

// The chart of the cell.
fn house(rt: &impl Abort, alloc: Global) -> Result<Chart, Fail> {
    let file = file_of(alloc, &HOUSE)?;
    assert!(rt; file.len() < 4_000_000_000);
    let Ok(chart) = read_cell(alloc, &file) else {
        return Err(Fail::from("no cell"));
    };
    Ok(chart)
}

fn expect_all(
    rt: &impl Abort,
    alloc: Global,
    chart: &Chart,
    locator: &Locator,
) -> Result<(), AllocError> {
    expect(rt, alloc, chart, locator, VERTICES)?;
    expect(rt, alloc, chart, locator, SEGMENTS)?;
    expect(rt, alloc, chart, locator, HEIGHTS)?;
    expect(rt, alloc, chart, locator, STRIPS)
}

#[test]
fn points_of_a_cell_made_by_hand(rt: HostRuntime) -> Result<(), Fail> {
    let alloc: Global = rt.alloc();
    let chart = house(&rt, alloc)?;
    let locator = Locator::new(alloc, &chart)?;
    expect_all(&rt, alloc, &chart, &locator)?;
    Ok(())
}
